//! Items of all kinds.
use super::runs::reports;
use std::test::Fail;

/// The sums of a counter pass 64 bits.
const COUNTER: &str = "\
[[space]]\n\
number = 1\n\
kind = \"counter\"\n\
---\n\
open 1 1\n\
send 1: begin, counter.add 1:61 -9223372036854775808, counter.add 1:61 -9223372036854775808, \
counter.add 1:61 9223372036854775807, commit\n\
flush 1 1\n\
send 1: begin, counter.read 1:61, commit\n\
flush 1 1\n\
";

const COUNTER_REPORT: &str = "\
t 1.1.1 1.1.1 1 causal -\n\
o 1:61 add:-9223372036854775808 done\n\
o 1:61 add:-9223372036854775808 done\n\
o 1:61 add:9223372036854775807 done\n\
t 1.1.2 1.1.1 2 causal 1.1.1=1\n\
o 1:61 read number:-9223372036854775809\n\
committed 2 strong 0 aborted 0 loose 0 links 0 refused 0 waiting 0\n\
";

#[test]
fn a_counter_passes_its_amounts(rt: HostRuntime) -> Result<(), Fail> {
    assert!(rt; reports(rt.alloc(), "replay", COUNTER, COUNTER_REPORT)?);
    Ok(())
}

/// A session fills a cart and an account, takes one thing out of the cart, and reads both; another one changes a flag and
/// writes a multi-value register, and reads them.
const CART: &str = "\
[[space]]\n\
number = 1\n\
kind = \"counter\"\n\
[[space]]\n\
number = 2\n\
kind = \"set\"\n\
[[space]]\n\
number = 3\n\
kind = \"flag\"\n\
[[space]]\n\
number = 4\n\
kind = \"multi\"\n\
---\n\
open 1 1\n\
open 1 1\n\
send 1: begin, counter.add 1:61 100, set.add 2:63 78, set.add 2:63 79, commit\n\
flush 1 1\n\
send 1: begin, counter.add 1:61 -60, set.remove 2:63 78, set.members 2:63, set.contains 2:63 78, counter.read 1:61, commit\n\
flush 1 1\n\
send 2: begin, flag.enable 3:66, flag.read 3:66, flag.disable 3:66, flag.read 3:66, multi.write 4:6d 7a, multi.read 4:6d, commit\n\
flush 1 1\n\
";

const CART_REPORT: &str = "\
t 1.1.1 1.1.1 1 causal -\n\
o 1:61 add:100 done\n\
o 2:63 add:78 done\n\
o 2:63 add:79 done\n\
t 1.1.2 1.1.1 2 causal 1.1.1=1\n\
o 1:61 add:-60 done\n\
o 2:63 remove:78 done\n\
o 2:63 members values:1:79\n\
o 2:63 contains:78 no\n\
o 1:61 read number:40\n\
t 1.1.3 1.1.2 1 causal 1.1.1=2\n\
o 3:66 enable done\n\
o 3:66 read yes\n\
o 3:66 disable done\n\
o 3:66 read no\n\
o 4:6d write:7a done\n\
o 4:6d read values:1:7a\n\
committed 3 strong 0 aborted 0 loose 0 links 0 refused 0 waiting 0\n\
";

#[test]
fn a_cart_and_an_account(rt: HostRuntime) -> Result<(), Fail> {
    assert!(rt; reports(rt.alloc(), "replay", CART, CART_REPORT)?);
    Ok(())
}

/// Two sessions begin with the value in the set; one removes it and the other adds it again.
const ADD_WINS: &str = "\
[[space]]\n\
number = 1\n\
kind = \"set\"\n\
---\n\
open 1 1\n\
open 1 1\n\
send 1: begin, set.add 1:61 78, commit\n\
flush 1 1\n\
send 1: begin\n\
send 2: begin\n\
send 1: set.remove 1:61 78, commit\n\
flush 1 1\n\
send 2: set.add 1:61 78, commit\n\
flush 1 1\n\
send 1: begin, set.members 1:61, commit\n\
flush 1 1\n\
";

const ADD_WINS_REPORT: &str = "\
t 1.1.1 1.1.1 1 causal -\n\
o 1:61 add:78 done\n\
t 1.1.2 1.1.1 2 causal 1.1.1=1\n\
o 1:61 remove:78 done\n\
t 1.1.3 1.1.2 1 causal 1.1.1=1\n\
o 1:61 add:78 done\n\
t 1.1.4 1.1.1 3 causal 1.1.1=2 1.1.2=1\n\
o 1:61 members values:1:78\n\
committed 4 strong 0 aborted 0 loose 0 links 0 refused 0 waiting 0\n\
";

#[test]
fn an_addition_wins(rt: HostRuntime) -> Result<(), Fail> {
    assert!(rt; reports(rt.alloc(), "replay", ADD_WINS, ADD_WINS_REPORT)?);
    Ok(())
}
