use super::fixtures::{free_address, plan_of};
use crate::TcpLinks;
use std::net::TcpListener;
use std::test::Fail;
use us_edge::{Links, StartFault};

#[test]
fn ports_in_use(rt: HostRuntime) -> Result<(), Fail> {
    let taken = TcpListener::bind(&rt, "127.0.0.1:0")?;
    let taken = (taken.local_addr()?, taken);
    let mut links = TcpLinks::new(rt.clone()?, rt.alloc());
    let plan = plan_of(rt.alloc(), 1, taken.0, [free_address(&rt)?, taken.0])?;
    assert_eq!(rt; links.start(&plan), Err(StartFault::Failed));
    Ok(())
}
