use change_ops::change::read_change;
use change_ops::refusal::ChangeError;
use std::alloc::Global;
use std::test::Fail;
use test_inputs::lines::lines;

/// Changes of each form with lines of all kinds.
static CHANGES: [&str; 12] = [
    "change 1 4 / i 1@1 - 61 / i 2@1 1@1 62 / i 3@1 2@1 63 / m 4@1 strong - <1@1 <3@1",
    "change 2 1 / u 4@2 strong <2@1 $",
    "change 1 5 / i 1@1 - 61 / i 2@1 1@1 62 / i 3@1 2@1 63 / m 4@1 strong - <1@1 <3@1 / i 5@1 2@1 78",
    "change 1 5 / i 1@1 - 61 / i 2@1 1@1 62 / i 3@1 2@1 63 / m 4@1 link https://a.b <1@1 >2@1 / i 5@1 2@1 78",
    "change 1 1 / i 1@1 - 61",
    "change 1 1 / i 2@1 1@1 62",
    "change 1 1 / i 2@1 1@1 78",
    "change 2 1 / i 2@2 1@1 79",
    "change 3 2 / d 3@3 2@2 / m 4@3 em - <2@2 >2@1",
    "change 1 6 / i 1@1 - 61 / i 2@1 1@1 62 / m 3@1 color ff0080 ^ $ / m 4@1 comment:7 - >1@1 $ / m 5@1 comment:2 - ^ <2@1 / m 6@1 em - $ ^",
    "change2 1 2 / r 1@1 - 3 61 62 63 / m 4@1 code - >1@1 $",
    "change3 1 5 / r 1@1 - 3 61 62 63 / d 4@1 1@1 3 / v 7@1 4@1 2 / v 9@1 6@1 / m 10@1 code - >1@1 $",
];

/// Whether a text is a change cut short.
fn is_cut(alloc: Global, text: &str) -> bool {
    matches!(read_change(alloc, text), Err(ChangeError::Truncated))
}

#[test]
fn each_beginning_of_a_change_is_cut_short(rt: HostRuntime) -> Result<(), Fail> {
    for change in CHANGES {
        let text = lines(rt.alloc(), change)?;
        let are_cut = (0..text.len()).all(|end| text
            .get(..end)
            .is_some_and(|cut| is_cut(rt.alloc(), cut)));
        assert!(rt; are_cut);
        let (_, rest) = read_change(rt.alloc(), text.as_str())?;
        assert_eq!(rt; rest, "");
    }
    Ok(())
}

#[test]
fn a_change_lends_what_stands_behind_it(rt: HostRuntime) -> Result<(), Fail> {
    let mut text = lines(rt.alloc(), CHANGES[0])?;
    let behind = lines(rt.alloc(), CHANGES[10])?;
    text.push_str(behind.as_str())?;
    let (_, rest) = read_change(rt.alloc(), text.as_str())?;
    assert_eq!(rt; rest, behind.as_str());
    Ok(())
}
