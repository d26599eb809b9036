use crate::{StdinSource, StdoutSink};
use us_edge::{Sink, Source};

#[test]
fn streams(rt: HostRuntime) {
    let mut source = StdinSource::new(rt.stdin());
    assert_eq!(rt; source.read(&mut []), Ok(0));
    let mut sink = StdoutSink::new(rt.stdout());
    assert_eq!(rt; sink.write(b""), Ok(0));
    assert_eq!(rt; sink.write(b"\n"), Ok(1));
}
