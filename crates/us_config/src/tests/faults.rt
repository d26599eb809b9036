use super::fixtures::{all_told, told};
use crate::{ConfigFault, Key, ReadFault, read};
use std::test::Fail;

const FAULTS_OF_TEXTS: &str = "sites = = 3|top NotToml
sites = 3;sites = 3|top NotToml
[node];[node]|top NotToml
sites = 9223372036854775808|top NotToml
colour = 1|top WrongKey
Sites = 3|top WrongKey
sites = '3'|sites WrongValue
sites = 3.0|sites WrongValue
sites = true|sites WrongValue
sites = 4|sites OutOfLimit
sites = 0|sites OutOfLimit
sites = 9|sites OutOfLimit
sites = -1|sites OutOfLimit
sites = 9223372036854775807|sites OutOfLimit
partitions = []|partitions WrongValue
partitions = 0|partitions OutOfLimit
partitions = 17|partitions OutOfLimit
partitions = -1|partitions OutOfLimit";

const FAULTS_OF_SPACES: &str = "space = 1|space WrongValue
[space];number = 1|space WrongValue
space = [1]|space WrongValue
space = [{number = 1, kind = 'set', name = 'a'}]|space WrongKey
space = [{kind = 'set'}]|space.number WrongValue
space = [{number = '1', kind = 'set'}]|space.number WrongValue
space = [{number = 1, kind = 'set'}, {number = 1, kind = 'flag'}]|space.number WrongValue
space = [{number = 0, kind = 'set'}]|space.number OutOfLimit
space = [{number = 256, kind = 'set'}]|space.number OutOfLimit
space = [{number = -1, kind = 'set'}]|space.number OutOfLimit
space = [{number = 1}]|space.kind WrongValue
space = [{number = 1, kind = 1}]|space.kind WrongValue
space = [{number = 1, kind = 'Set'}]|space.kind WrongValue
space = [{number = 1, kind = ''}]|space.kind WrongValue";

const FAULTS_OF_NODES: &str = "node = 1|node WrongValue
[[node]];tick = 1|node WrongValue
[node];tock = 1|node WrongKey
[node];peers = 'a:1'|node.peers WrongValue
[node];peers = []|node.peers WrongValue
[node];peers = ['a:1', 'a:2']|node.peers WrongValue
sites = 3;[node];peers = ['a:1', 'a:2']|node.peers WrongValue
[node];peers = ['a:0']|node.peers WrongValue
[node];clients = [1]|node.clients WrongValue
[node];clients = ['a']|node.clients WrongValue
[node];tick = '1'|node.tick WrongValue
[node];tick = 0|node.tick OutOfLimit
[node];tick = 1000000001|node.tick OutOfLimit
[node];suspect = true|node.suspect WrongValue
[node];suspect = -1|node.suspect OutOfLimit
[node];suspect = 1000000001|node.suspect OutOfLimit";

const FIRST_FAULTS: &str = "sites = 4;colour = 1|top WrongKey
node = 1;colour = 1|top WrongKey
partitions = 0;sites = 2|sites OutOfLimit
sites = '';partitions = ''|sites WrongValue
space = 1;partitions = 0|partitions OutOfLimit
space = [{colour = 1}]|space WrongKey
space = [{number = 0, kind = 'sets'}]|space.number OutOfLimit
space = [{number = 1, kind = 'sets', conflicts = 1}]|space.kind WrongValue
space = [{number = 1, kind = 'set', conflicts = 1}, {colour = 1}]|space.conflicts WrongValue
space = [{number = 1, kind = 'set'}, {number = 1, kind = 'set'}, {number = 2, kind = 'set', conflicts = [['ad', 'ad']]}]|space.number WrongValue
space = [{number = 1, kind = 'set'}, 5, {number = 1, kind = 'set'}]|space WrongValue
node = 1;space = [{number = 1, kind = 'set', conflicts = 1}]|space.conflicts WrongValue
[node];tock = 1;peers = 1|node WrongKey
[node];clients = 1;peers = 1|node.peers WrongValue
[node];tick = 0;clients = 1|node.clients WrongValue
[node];suspect = 0;tick = 0|node.tick OutOfLimit";

#[test]
fn faults_of_the_text(rt: HostRuntime) -> Result<(), Fail> {
    all_told(&rt, rt.alloc(), FAULTS_OF_TEXTS)
}

#[test]
fn no_text(rt: HostRuntime) {
    assert!(rt;
        matches!(
            read(rt.alloc(), &[255]),
            Err(ReadFault::Refused {
                key: Key::Top,
                fault: ConfigFault::NotToml
            })
        )
    );
}

#[test]
fn faults_of_spaces(rt: HostRuntime) -> Result<(), Fail> {
    all_told(&rt, rt.alloc(), FAULTS_OF_SPACES)
}

#[test]
fn faults_of_conflicts(rt: HostRuntime) -> Result<(), Fail> {
    for (kind, conflicts) in [
        ("set", "1"),
        ("set", "'add'"),
        ("set", "['add', 'add']"),
        ("set", "[[]]"),
        ("set", "[['add']]"),
        ("set", "[['add', 'add', 'add']]"),
        ("set", "[['add', 1]]"),
        ("set", "[[1, 'add']]"),
        ("set", "[['add', 'Add']]"),
        ("set", "[['add', 'remove'], ['add', 'put']]"),
        ("set", "[['take', 'take']]"),
        ("set", "[['add', 'write']]"),
        ("register", "[['read', 'give']]"),
        ("counter", "[['write', 'write']]"),
        ("flag", "[['add', 'remove']]"),
        ("multi", "[['enable', 'write']]"),
    ] {
        let text = format!(in rt.alloc();
            "space = [{{number = 1, kind = '{kind}', conflicts = {conflicts}}}]"
        )?;
        assert_eq!(rt;
            told(rt.alloc(), text.as_str())?.as_str(),
            "space.conflicts WrongValue",
            "{text:?}"
        );
    }
    Ok(())
}

#[test]
fn faults_of_nodes(rt: HostRuntime) -> Result<(), Fail> {
    all_told(&rt, rt.alloc(), FAULTS_OF_NODES)
}

/// Of two faults the earlier check's is told.
#[test]
fn first_faults(rt: HostRuntime) -> Result<(), Fail> {
    all_told(&rt, rt.alloc(), FIRST_FAULTS)
}
