use crate::lines::{QUEUE_OF_ONE, QUEUE_OF_ONE_REPLIES};
use change_ops::size::Size;
use hub_requests::limits::SessionOptions;
use hub_sessions::replaying::replay;
use std::test::Fail;

#[test]
fn a_session_is_replayed(rt: HostRuntime) -> Result<(), Fail> {
    let mut out = Vec::new(rt.alloc());
    let ended = replay(
        &rt,
        rt.alloc(),
        Size::Small,
        QUEUE_OF_ONE.as_bytes(),
        &mut out,
        2,
        SessionOptions::unlimited(false),
    );
    assert!(rt; ended.is_ok());
    assert_eq!(rt; out.as_slice(), QUEUE_OF_ONE_REPLIES.as_bytes());
    Ok(())
}
