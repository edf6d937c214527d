use crate::client::{Client, expect, expect_session};
use crate::fault::Fault;
use std::alloc::Global;
use std::net::{Net, TcpStream};

/// Three changes and two subscribers of a session that may have two and one accepted. The program's verdict is always
/// 1.
const TOO_MANY: &str = "change 1 1
i 1@1 - 61
change 1 1
i 2@1 - 62
change 1 1
i 3@1 - 63
sub 8 b7000000010000009500000000000000
sub 8 b7000000010000009500000000000000
";

static TOO_MANY_REPLIES: [&str; 5] = [
    "ok version 1\n",
    "ok version 2\n",
    "no 50 HistoryFull\n",
    "ok sub 0\n",
    "no 51 SubscribersFull\n",
];

/// A change with the greatest counter, which is too far above all others, one beside it, and a subscriber.
const ANOTHER: &str = "change 9 1
i 281474976710655@9 - 51
change 2 1
i 3@2 2@1 63
sub 8 b7000000010000009500000000000000
pull 1 9
";

const ANOTHER_REPLIES: &str = "no 42 Limit line 2
ok version 3
ok sub 1
hit 3 0 1
end 3 1
ok items 2
";

/// What the first session may still do, and what not.
const REST: &str = "pull 0 9
change 1 1
i 4@1 - 64
";

const REST_REPLIES: &str = "hit 2 0 1
end 2 1
hit 3 0 1
end 3 1
ok items 4
no 50 HistoryFull
";

/// A session has nothing left that it may have accepted: another one has all that it may, and the first goes on with
/// its subscriber.
pub fn limited<H: Net<Stream = TcpStream>>(rt: &H, alloc: Global, port: u16) -> Result<(), Fault> {
    let mut greedy = Client::connect(rt, alloc, port)?;
    greedy.send(TOO_MANY)?;
    for want in &TOO_MANY_REPLIES {
        let got = greedy.line(alloc)?;
        expect(got.as_str(), want)?;
    }
    expect_session(rt, alloc, port, ANOTHER, ANOTHER_REPLIES)?;
    let told = greedy.answered(alloc, REST)?;
    expect(told.as_str(), REST_REPLIES)
}
