//! How many tasks a run has had, which no command tells.

use super::reading::code_of;
use oss_serial::serial;
use std::test::Fail;

#[test]
fn main_and_each_created_task_are_counted(rt: HostRuntime) -> Result<(), Fail> {
    let text =
        "long x;\nint main() {\n#pragma oss task inout(x)\n{\n#pragma oss task\n;\n#pragma oss task in(x)\n;\n}\n}";
    let code = code_of(&rt, text);
    let ran = serial(rt.alloc(), &code, 5)?;
    assert_eq!(rt; ran.tasks, 4);
    Ok(())
}
