//! The lines of sessions, and what they are answered.

/// Two changes, a subscriber with a queue of one, and a pull.
pub const QUEUE_OF_ONE: &str = "change 1 4
i 1@1 - 61
i 2@1 1@1 62
i 3@1 2@1 63
m 4@1 strong - <1@1 <3@1
change 2 1
u 4@2 strong <2@1 $
sub 1 611018000000000057000000010000009500000000000000
pull 0 5
";

pub const QUEUE_OF_ONE_REPLIES: &str = "ok version 1
ok version 2
ok sub 0
hit 2 0 1
end 2 2
ok items 2
";

/// A subscriber with a queue of two whose verdict is 1 on each span, ten changes of a letter each, and two pulls.
pub const TEN_VERSIONS: &str = "sub 2 b7000000010000009500000000000000
change 1 1
i 1@1 - 61
change 1 1
i 2@1 1@1 62
change 1 1
i 3@1 2@1 63
change 1 1
i 4@1 3@1 64
change 1 1
i 5@1 4@1 65
change 1 1
i 6@1 5@1 66
change 1 1
i 7@1 6@1 67
change 1 1
i 8@1 7@1 68
change 1 1
i 9@1 8@1 69
change 1 1
i 10@1 9@1 6a
pull 0 4
pull 0 1024
";

pub const TEN_VERSIONS_REPLIES: &str = "ok sub 0
ok version 1
ok version 2
ok version 3
ok version 4
ok version 5
ok version 6
ok version 7
ok version 8
ok version 9
ok version 10
end 0 0
hit 1 0 1
end 1 1
hit 2 0 1
ok items 4
end 2 1
hit 3 0 1
end 3 1
hit 4 0 1
end 4 1
hit 5 0 1
end 5 1
hit 6 0 1
end 6 1
hit 7 0 1
end 7 1
hit 8 0 1
end 8 1
hit 9 0 1
end 9 1
hit 10 0 1
end 10 1
ok items 17
";

/// Two subscribers whose verdict is 1 on each span, a change, and a pull of the second.
pub const TWO_SUBSCRIBERS: &str = "sub 1 b7000000010000009500000000000000
sub 2 b7000000010000009500000000000000
change 1 1
i 1@1 - 61
pull 1 5
";

pub const TWO_SUBSCRIBERS_REPLIES: &str = "ok sub 0
ok sub 1
ok version 1
end 0 0
hit 1 0 1
end 1 1
ok items 3
";
