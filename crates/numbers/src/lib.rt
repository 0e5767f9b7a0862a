// Whole numbers: the laws of their sums, products and order, of sums over lists, and what chains over a range of indices answer. The other crates prove identities of polynomials by its
// proofs/Quote.antt.
#![tactic(auto)]

ghost use Rattle.numbers.specs.Laws.{RingLaws, OrderLaws, SumLaws};

// Products follow the laws of a ring, and rise with their factors.
pub fn number_laws()
    ensures ring { RingLaws }
    ensures order { OrderLaws }
{}

// A sum over a list depends on what is in the list, and not on its order.
pub fn sum_laws<T>()
    ensures { SumLaws T }
{}
