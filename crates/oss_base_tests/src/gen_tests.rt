//! A generated program, written out by hand.

use oss_gen::generated;
use std::test::Fail;

/// The program with three tasks from 7 on.
const THREE: &[u8] = b"long a[16], s, t;
int main() {
#pragma oss task inout(a[12;1])
for (long i = 12; i < 13; i++) a[i] = a[i] * 3 + 38;
#pragma oss task weakinout(a[11;4])
for (long i = 11; i < 15; i++) {
#pragma oss task inout(a[i])
a[i] += 193;
}
#pragma oss task in(a[5;4]) reduction(+: s)
for (long i = 5; i < 9; i++) s += a[i];
#pragma oss taskwait
for (long i = 0; i < 16; i++) t += a[i];
printf(\"%ld %ld\\n\", s, t);
}
";

#[test]
fn three_tasks_are_written(rt: HostRuntime) -> Result<(), Fail> {
    let text = generated(rt.alloc(), 7, 3)?;
    assert!(rt; text.as_slice() == THREE);
    Ok(())
}

#[test]
fn starts_count_modulo_256(rt: HostRuntime) -> Result<(), Fail> {
    let text = generated(rt.alloc(), 18_446_744_073_709_551_367, 3)?;
    assert!(rt; text.as_slice() == THREE);
    Ok(())
}
