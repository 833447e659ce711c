//! Where the globals of a program lie.

use super::reading::known;
use std::test::Fail;

#[test]
fn globals_lie_one_behind_the_other(rt: HostRuntime) -> Result<(), Fail> {
    let known = known(&rt, "long x, a[3];\nint main() { }\nint i;\n");
    assert_eq!(rt; known.cells(), 5);
    assert_eq!(rt; known.globals(), 3);
    for (global, lo, hi) in [(0u32, 0, 1), (1, 1, 4), (2, 4, 5)] {
        assert!(rt; global < known.globals());
        let place = known.place(global);
        assert_eq!(rt; (place.lo, place.hi), (lo, hi));
    }
    Ok(())
}
