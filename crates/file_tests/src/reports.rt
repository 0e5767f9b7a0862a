use crate::told::tells;
use std::test::Fail;

// Recording, centers, and what is told of them.
const REPORTS: [(&str, &str, &str); 8] = [
    (
        "gap,length,hold\n100,10,1\n102,10,1\n110,20,3\n112,20,1\n",
        "gap,length\n100,10\n110,20\n",
        "group,weight,gap,length\n0,2,101,10\n1,4,110,20\n",
    ),
    // The same with the columns in other orders.
    (
        "hold,gap,length\n1,100,10\n1,102,10\n3,110,20\n1,112,20\n",
        "length,gap\n10,100\n20,110\n",
        "group,weight,gap,length\n0,2,101,10\n1,4,110,20\n",
    ),
    (
        "length,hold,gap\n10,1,100\n10,1,102\n20,3,110\n20,1,112\n",
        "gap,length\n100,10\n110,20\n",
        "group,weight,gap,length\n0,2,101,10\n1,4,110,20\n",
    ),
    // A mean that lies half-way goes to the lower number.
    (
        "lag,torque,speed,temp\n-1,0,0,0\n-2,0,0,0\n",
        "lag,torque,speed,temp\n0,0,0,0\n",
        "group,weight,lag,torque,speed,temp\n0,2,-2,0,0,0\n",
    ),
    (
        "temp,lag,speed,torque\n0,-1,0,0\n0,0,0,0\n",
        "torque,speed,temp,lag\n0,0,0,0\n",
        "group,weight,lag,torque,speed,temp\n0,2,-1,0,0,0\n",
    ),
    // Each value stands under its own name.
    (
        "temp,lag,speed,torque\n4,1,3,2\n",
        "torque,speed,temp,lag\n20,30,40,10\n",
        "group,weight,lag,torque,speed,temp\n0,1,1,2,3,4\n",
    ),
    // Of two centers at one position the first has the records, and the second stays.
    (
        "gap,length,hold\n100,10,1\n102,10,1\n",
        "gap,length\n90,10\n90,10\n",
        "group,weight,gap,length\n0,2,101,10\n1,0,90,10\n",
    ),
    (
        "lag,torque,speed,temp\n-5,6,-7,8\n",
        "lag,torque,speed,temp\n1,2,3,4\n1,2,3,4\n",
        "group,weight,lag,torque,speed,temp\n0,1,-5,6,-7,8\n1,0,1,2,3,4\n",
    ),
];

#[test]
fn reports(rt: HostRuntime) -> Result<(), Fail> {
    for (recording, centers, expected) in REPORTS {
        tells(&rt, rt.alloc(), recording, centers, expected)?;
    }
    Ok(())
}
