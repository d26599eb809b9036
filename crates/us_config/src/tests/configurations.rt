use super::fixtures::{all_told, told};
use std::test::Fail;

/// Texts, a semicolon for the end of a line in each, and behind the bar what each says.
const CONFIGURATIONS: &str = "|f 0 parts 1, 1 Register
# nothing|f 0 parts 1, 1 Register
space = []|f 0 parts 1, 1 Register
sites = 3|f 1 parts 1, 1 Register
sites = 5;partitions = 16|f 2 parts 16, 1 Register
sites = 7;partitions = 4|f 3 parts 4, 1 Register
sites = 3;[[space]];number = 1;kind = 'counter';conflicts = [['take','take']]|f 1 parts 1, 1 Counter Take-Take
sites = 3;[[space]];number = 1;kind = 'set'|f 1 parts 1, 1 Set
sites = 3;partitions = 4;[[space]];number = 1;kind = 'counter';conflicts = [['take','take']];[[space]];number = 2;kind = 'set';[[space]];number = 3;kind = 'flag'|f 1 parts 4, 1 Counter Take-Take, 2 Set, 3 Flag
[[space]];number = 255;kind = 'multi';conflicts = [['write','read']];[[space]];number = 1;kind = 'register';conflicts = []|f 0 parts 1, 1 Register, 255 Multi Read-Write Write-Read
[[space]];number = 2;kind = 'flag';conflicts = [['enable','disable'],['read','read']]|f 0 parts 1, 2 Flag Read-Read Enable-Disable Disable-Enable
[[space]];number = 2;kind = 'set';conflicts = [['add','remove']]|f 0 parts 1, 2 Set Add-Remove Remove-Add
[[space]];number = 2;kind = 'counter';conflicts = [['give','read']]|f 0 parts 1, 2 Counter Read-Give Give-Read";

#[test]
fn whole_configurations(rt: HostRuntime) -> Result<(), Fail> {
    all_told(&rt, rt.alloc(), CONFIGURATIONS)
}

#[test]
fn carriage_returns(rt: HostRuntime) -> Result<(), Fail> {
    let shown = told(rt.alloc(), "sites = 7\r\npartitions = 4\r\n")?;
    assert_eq!(rt; shown.as_str(), "f 3 parts 4, 1 Register");
    Ok(())
}
