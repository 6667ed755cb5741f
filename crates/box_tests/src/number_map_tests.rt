//! Numbers with their values, after insertions and removals.

use crate::same::same;
use number_map::NumberMap;
use std::test::Fail;

#[test]
fn numbers_have_their_values(rt: HostRuntime) -> Result<(), Fail> {
    let mut map = NumberMap::new(rt.alloc());
    same(&rt, &map.get(0), &None, "0");
    // the least and the largest number, and one that is given another value
    for (number, value) in [(7, 1u8), (0, 2), (u64::MAX, 3), (7, 4)] {
        map.insert(number, value)?;
        same(&rt, &map.get(number), &Some(value), "what was inserted");
    }
    map.remove(0);
    map.remove(5); // which isn't there
    same(&rt, &map.get(0), &None, "0");
    same(&rt, &map.get(7), &Some(4), "7");
    same(&rt, &map.get(u64::MAX), &Some(3), "the largest number");
    Ok(())
}
