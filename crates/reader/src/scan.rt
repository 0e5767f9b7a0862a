ghost use Rattle.reader.specs.Fields.{CutOnce};

// What stands before the first `b` of `bytes`, and what stands behind it. None where no byte is `b`.
pub(crate) fn cut_once(bytes: &[u8], b: u8) -> Option<(&[u8], &[u8])>
    ensures { CutOnce bytes.now b result }
{
    let n = bytes.iter().position(|x| *x == b)?;
    Some((&bytes[..n], &bytes[n + 1..]))
}
