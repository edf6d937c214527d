use abstract_state::known::{Known, lent};
use abstract_state::quantity::Quantity;
use abstract_state::region::Tails;
use abstract_state::slot::Slot;
use abstract_state::state::AbsReg;
use bpf_words::words::Words;
use interpreter::run::run_steps;
use label_potentials::potential::Potential;
use loop_bounds::bounds::find_potentials;
use loop_check::check::check;
use loop_check::label::{Bound, Label};
use loop_search::states::{Visits, find_states};
use semantics::Outcome;
use span_context::context::{Context, Facts};
use std::alloc::{AllocError, Global};
use std::test::Fail;
use test_inputs::random::Random;
use tracked_state::state::TrackedState;

// The check of programs that loop, without the search that it needn't trust: the labels of programs are spoiled, or the
// programs under their labels. What the check takes all the same must be harmless: each run ends within the bound, with
// no fault.

/// Programs that loop and are accepted, some as compilers lay them out.
static PROGRAMS: [&str; 10] = [
    // Each byte, by a pointer to the end.
    "79120000000000007913080000000000b7000000000000001d32030000000000712000000000000007020000010000000500fcff000000009500000000000000",
    // Each byte, by an index below the length.
    "b7020000000000006114100000000000b7000000000000003d4205000000000079150000000000000f25000000000000715000000000000007020000010000000500faff000000009500000000000000",
    // Each byte of the link.
    "79123800000000007913400000000000b7000000000000001d32030000000000712000000000000007020000010000000500fcff000000009500000000000000",
    // Records that tell their length.
    "b700000000000000791208000000000079110000000000003d21070000000000b40000000000000071130000000000000f1300000000000004000000010000000703000001000000bf31000000000000ad23faff000000009500000000000000",
    // Bullets: loops in one over lines.
    "79120000000000007913080000000000b7000000000000003d32140000000000bf210000000000000701000002000000ad130300000000007121000000000000160109002d000000160108002a000000bf21000000000000bd130c00000000000701000001000000bf120000000000007114ffff000000005504fbff0a0000002d13f3ff00000000950000000000000071210100000000005501f6ff200000000400000001000000bc00000000000000bf210000000000000500f3ff000000009500000000000000",
    // The greatest byte.
    "611010000000000015000a00000000007911000000000000bf130000000000000f03000000000000b7020000000000007110000000000000be02010000000000bf20000000000000bf0200000000000007010000010000005d31faff000000009500000000000000",
    // The last word, by an index that falls.
    "79140000000000006110100000000000bf020000000000001502090000000000bf2100000000000004010000ffffffffbc11000000000000bf430000000000000f1300000000000071330000000000001503030020000000bf120000000000005502f7ff0000000095000000000000001c20000000000000bc000000000000009500000000000000",
    // Whether the text is the same from both ends.
    "b7000000000000006113100000000000a6031200030000007911000000000000b70200000000000007030000ffffffff05000500000000000702000001000000b700000001000000bf4300000000000007030000ffffffff3d42090000000000bf34000000000000bf130000000000000f43000000000000bf150000000000000f2500000000000071330000000000007155000000000000b7000000000000001e35f2ff000000009500000000000000",
    // Words: a pointer that moves until it is the end.
    "79120000000000007917080000000000b7000000000000001d721a0000000000bf04000000000000b706000001000000bf080000000000007121000000000000160112002000000004010000f7ffffff57010000ff000000bf65000000000000b601010001000000bf850000000000005f50000000000000bf03000000000000bf600000000000002601010001000000bf80000000000000bc000000000000000c43000000000000bc3400000000000007020000010000005d72efff000000000c30000000000000bc000000000000009500000000000000bf03000000000000b7000000000000000500f6ff000000009500000000000000",
    // The link in the text: a loop of eight turns in one.
    "b70000000000000079134000000000007912380000000000bf2400000000000007040000080000002d342b000000000079130800000000007911000000000000bf1400000000000007040000080000002d34260000000000b7040000000000007125000000000000bf160000000000000f4600000000000071600000000000005e501b0000000000716001000000000071270100000000005e70180000000000bf100000000000000f40000000000000710702000000000071280200000000005e87130000000000710003000000000071270300000000005e70100000000000bf100000000000000f40000000000000710704000000000071280400000000005e870b0000000000710005000000000071270500000000005e70080000000000bf100000000000000f40000000000000710706000000000071280600000000005e87030000000000710007000000000071270700000000001e70060000000000b700000000000000070400000100000007060000090000002d360100000000000500dcff0000000095000000000000000704000001000000bf400000000000000500fcff00000000",
];

/// A program, and the same with one byte changed, so that runs meet a fault.
static FAULTY: [(&str, &str); 4] = [
    // A load one byte behind what was asked for.
    (
        "79120000000000007913080000000000b7000000000000001d32030000000000712000000000000007020000010000000500fcff000000009500000000000000",
        "79120000000000007913080000000000b7000000000000001d32030000000000712001000000000007020000010000000500fcff000000009500000000000000",
    ),
    // Two bytes a turn.
    (
        "79120000000000007913080000000000b7000000000000001d32030000000000712000000000000007020000010000000500fcff000000009500000000000000",
        "79120000000000007913080000000000b7000000000000001d32030000000000712000000000000007020000020000000500fcff000000009500000000000000",
    ),
    // An index that may be the length.
    (
        "b7020000000000006114100000000000b7000000000000003d4205000000000079150000000000000f25000000000000715000000000000007020000010000000500faff000000009500000000000000",
        "b7020000000000006114100000000000b7000000000000002d4205000000000079150000000000000f25000000000000715000000000000007020000010000000500faff000000009500000000000000",
    ),
    // A load one byte behind the index.
    (
        "b7020000000000006114100000000000b7000000000000003d4205000000000079150000000000000f25000000000000715000000000000007020000010000000500faff000000009500000000000000",
        "b7020000000000006114100000000000b7000000000000003d4205000000000079150000000000000f25000000000000715001000000000007020000010000000500faff000000009500000000000000",
    ),
];

/// How many growths go to a program's own numbers: as many as the verifier tries.
const GROWTHS: [u8; 2] = [2, 22];

/// How often the labels of each program are spoiled, and how often its bytes.
const TURNS: usize = 120;

/// How often a label over each faulty program is made to say more.
const FAULTY_TURNS: usize = 300;

/// More steps than a run takes that ends within its bound, on spans as short as these.
const MANY: u64 = 1 << 26;

/// Labels of a program, which are spoiled and made right again.
#[derive(Drop)]
struct Labels {
    labels: Vec<Option<Label>>,
}

/// How many were refused, how many taken, and how many of these had a run that ended in another way.
#[derive(Clone, Copy)]
struct Counts {
    refused: usize,
    taken: usize,
    wrong: usize,
}

/// What runs are on: texts and links' texts are the first bytes.
#[derive(Drop)]
struct Spans {
    text: Vec<u8>,
    link: Vec<u8>,
}

fn potential_at(potentials: &[Option<Potential>], slot: usize) -> Option<Potential> {
    match potentials.get(slot) {
        Some(potential) => *potential,
        None => None,
    }
}

/// A label once more.
fn copy_of(alloc: Global, label: &Option<Label>) -> Result<Option<Label>, AllocError> {
    match label {
        Some(label) => Ok(Some(Label {
            state: label.state.copy(alloc)?,
            potential: label.potential,
        })),
        None => Ok(None),
    }
}

impl Labels {
    /// What a search finds, with so many growths.
    fn found(alloc: Global, words: &Words<'_>, growths: u8) -> Result<Option<Labels>, AllocError> {
        let Ok(states) = find_states(alloc, words, growths, &mut Visits::all()) else {
            return Ok(None);
        };
        let Some(potentials) = find_potentials(alloc, words, &states)? else {
            return Ok(None);
        };
        let mut labels = Vec::with_capacity(alloc, states.len())?;
        for (slot, state) in states.iter().enumerate() {
            let label = match (state, potential_at(&potentials, slot)) {
                (Some(state), Some(potential)) => Some(Label {
                    state: state.copy(alloc)?,
                    potential,
                }),
                _ => None,
            };
            labels.push(label)?;
        }
        Ok(Some(Labels { labels }))
    }

    /// The bound that the first label says.
    fn bound(&self) -> Option<Bound> {
        match self.labels.first() {
            Some(Some(label)) => Some(Bound {
                constant: u64::try_from(label.potential.constant).ok()?,
                per_byte: u32::try_from(label.potential.per_byte).ok()?,
                per_link_byte: u32::try_from(label.potential.per_link_byte).ok()?,
            }),
            _ => None,
        }
    }

    /// The bound, where the check takes the labels.
    fn taken(&self, alloc: Global, words: &Words<'_>) -> Option<Bound> {
        let bound = self.bound()?;
        match check(alloc, words, &self.labels, &bound) {
            Ok(()) => Some(bound),
            Err(_) => None,
        }
    }

    fn copy_at(&self, alloc: Global, slot: usize) -> Result<Option<Label>, AllocError> {
        match self.labels.get(slot) {
            Some(label) => copy_of(alloc, label),
            None => Ok(None),
        }
    }

    fn put(&mut self, slot: usize, label: Option<Label>) {
        if let Some(place) = self.labels.get_mut(slot) {
            *place = label;
        }
    }

    fn take(&mut self, slot: usize) -> Option<Label> {
        match self.labels.get_mut(slot) {
            Some(place) => place.take(),
            None => None,
        }
    }

    /// Makes all bounds of steps less by so many.
    fn lower(&mut self, by: i64) {
        for slot in 0..self.labels.len() {
            if let Some(mut label) = self.take(slot) {
                label.potential.constant = label.potential.constant.wrapping_sub(by);
                self.put(slot, Some(label));
            }
        }
    }
}

fn raised(tail: Option<u32>, by: u32) -> Option<u32> {
    match tail {
        Some(tail) => Some(tail.saturating_add(by)),
        None => Some(by),
    }
}

/// A number of which less is possible: a bound is nearer to the other, or more bytes are behind it.
fn narrower(random: &mut Random, quantity: Quantity) -> Option<Quantity> {
    let Quantity { bits, range, tails } = quantity;
    let by = random.one_of(&[1u32, 2, 4, 1000]);
    match random.below(4) {
        0 => Quantity::normal(
            bits,
            range.at_most(range.high.saturating_sub(u64::from(by)))?,
            tails,
        ),
        1 => Quantity::normal(
            bits,
            range.at_least(range.low.saturating_add(u64::from(by)))?,
            tails,
        ),
        2 => Some(Quantity {
            bits,
            range,
            tails: Tails {
                text: raised(tails.text, by),
                link: tails.link,
            },
        }),
        _ => Some(Quantity {
            bits,
            range,
            tails: Tails {
                text: tails.text,
                link: raised(tails.link, by),
            },
        }),
    }
}

fn narrower_known(random: &mut Random, known: Known) -> Option<Known> {
    match known {
        Known::Number(quantity) => Some(Known::Number(narrower(random, quantity)?)),
        Known::Lent(address) => {
            let offset = narrower(random, address.offset)?;
            match lent(address.region, Some(offset)) {
                Ok(known) => known,
                Err(_) => None,
            }
        }
        _ => None,
    }
}

/// Makes what a register holds narrower, where it can be.
fn narrow_register(random: &mut Random, state: &mut TrackedState) {
    let place = random.below(11).min(10);
    if let AbsReg::Set(known) = state.state.registers[place] {
        if let Some(known) = narrower_known(random, known) {
            state.state.registers[place] = AbsReg::Set(known);
        }
    }
}

/// Makes what a register holds narrower, of which something is known.
fn narrow_known_register(random: &mut Random, state: &mut TrackedState) {
    let start = random.below(11).min(10);
    for step in 0..11 {
        let place = ((start + step) % 11).min(10);
        if let AbsReg::Set(known) = state.state.registers[place] {
            if let Some(known) = narrower_known(random, known) {
                state.state.registers[place] = AbsReg::Set(known);
                return;
            }
        }
    }
}

/// Makes what eight bytes of the stack hold narrower, or says of others that they are set.
fn narrow_stack(random: &mut Random, state: &mut TrackedState) {
    let place = 63 - random.below(8).min(7);
    match state.state.stack[place] {
        Slot::Spilled(known) => {
            if let Some(known) = narrower_known(random, known) {
                state.state.stack[place] = Slot::Spilled(known);
            }
        }
        Slot::Marks(_) => state.state.stack[place] = Slot::Marks([true; 8]),
    }
}

/// Says of a register what is known of another one.
fn confuse_registers(random: &mut Random, state: &mut TrackedState) {
    let to = random.below(11).min(10);
    let from = random.below(11).min(10);
    state.state.registers[to] = state.state.registers[from];
}

/// Says of a register that it is a copy of another one, or of what another one was made of.
fn mark_register(random: &mut Random, state: &mut TrackedState) {
    let to = random.below(11).min(10);
    let from = random.below(11).min(10);
    if let Some(mut marks) = state.copies.marks.take() {
        marks.registers[to] = marks.registers[from];
        state.copies.marks = Some(marks);
    }
}

/// Spoils a label.
fn spoil(random: &mut Random, label: &mut Label) {
    match random.below(9) {
        0 | 1 | 2 => narrow_register(random, &mut label.state),
        3 => narrow_stack(random, &mut label.state),
        4 => confuse_registers(random, &mut label.state),
        5 => mark_register(random, &mut label.state),
        6 => {
            let by = random.one_of(&[-2i64, -1, 1, 2, 1000]);
            label.potential.constant = label.potential.constant.wrapping_add(by);
        }
        7 => {
            let by = random.one_of(&[-1i32, 1]);
            label.potential.per_byte = label.potential.per_byte.wrapping_add(by);
        }
        _ => {
            let place = random.below(8).min(7);
            let by = random.one_of(&[-1i32, 1]);
            label.potential.less[place].weight = label.potential.less[place]
                .weight
                .wrapping_add(by);
        }
    }
}

/// A random text of some hundred bytes, and of a link.
fn random_spans(alloc: Global, random: &mut Random) -> Result<Spans, AllocError> {
    let mut text = Vec::new(alloc);
    let mut link = Vec::new(alloc);
    for _byte in 0..400 {
        text.push(random.one_of("ab/.a-0 @:\n".as_bytes()))?;
        link.push(random.one_of("ab/.a:".as_bytes()))?;
    }
    Ok(Spans { text, link })
}

/// Whether a run on a span ends with a number, within the bound.
fn ends_within(words: &Words<'_>, bound: &Bound, text: &[u8], link: &[u8]) -> bool {
    if text.len() > 1024 || link.len() > 1024 {
        return false;
    }
    let context = Context::new(&Facts {
        text_len: text.len() as u32,
        characters: text.len() as u32,
        flags: 0,
        color: 2,
        link_len: link.len() as u32,
        comments: 0,
        index: 0,
        count: 1,
        version: 1,
    });
    let of_text = u64::from(bound.per_byte).saturating_mul(text.len() as u64);
    let of_link = u64::from(bound.per_link_byte).saturating_mul(link.len() as u64);
    let steps = bound
        .constant
        .saturating_add(of_text)
        .saturating_add(of_link)
        .min(MANY);
    matches!(
        run_steps(words, steps as usize, &context, text, link),
        Outcome::Done(_)
    )
}

/// Whether runs on some spans do.
fn are_harmless(random: &mut Random, words: &Words<'_>, bound: &Bound, spans: &Spans) -> bool {
    for _run in 0..8 {
        let short = random.below(12);
        let length = random.one_of(&[short, short, 0, 1, 100, 390]);
        let link_length = random.one_of(&[short, 0, 1, 8, 9, 390]);
        let (_, text) = spans.text.split_at(random.below(8).min(spans.text.len()));
        let (text, _) = text.split_at(length.min(text.len()));
        let (link, _) = spans.link.split_at(link_length.min(spans.link.len()));
        if !ends_within(words, bound, text, link) {
            return false;
        }
    }
    true
}

impl Counts {
    fn none() -> Counts {
        Counts {
            refused: 0,
            taken: 0,
            wrong: 0,
        }
    }

    /// Counts what became of labels.
    fn add(
        &mut self,
        alloc: Global,
        random: &mut Random,
        words: &Words<'_>,
        labels: &Labels,
        spans: &Spans,
    ) {
        let Some(bound) = labels.taken(alloc, words) else {
            self.refused = self.refused.saturating_add(1);
            return;
        };
        self.taken = self.taken.saturating_add(1);
        if !are_harmless(random, words, &bound, spans) {
            self.wrong = self.wrong.saturating_add(1);
        }
    }
}

/// The labels of a program that is accepted.
fn labels_of(alloc: Global, words: &Words<'_>) -> Result<Option<Labels>, AllocError> {
    for growths in GROWTHS {
        if let Some(labels) = Labels::found(alloc, words, growths)? {
            if labels.taken(alloc, words).is_some() {
                return Ok(Some(labels));
            }
        }
    }
    Ok(None)
}

/// Spoils one or two labels of a program at a time: one is dropped, exchanged, has another's state, or is spoiled.
fn spoil_labels(
    alloc: Global,
    random: &mut Random,
    words: &Words<'_>,
    labels: &mut Labels,
    counts: &mut Counts,
) -> Result<(), AllocError> {
    let spans = random_spans(alloc, random)?;
    for _turn in 0..TURNS {
        let slot = random.below(words.len());
        let other = random.below(words.len());
        let kept = labels.copy_at(alloc, slot)?;
        let kept_other = labels.copy_at(alloc, other)?;
        match random.below(8) {
            0 => labels.put(slot, None),
            1 => {
                let first = labels.copy_at(alloc, slot)?;
                let second = labels.copy_at(alloc, other)?;
                labels.put(slot, second);
                labels.put(other, first);
            }
            2 => {
                let second = labels.copy_at(alloc, other)?;
                if let (Some(mut label), Some(second)) = (labels.take(slot), second) {
                    label.state = second.state;
                    labels.put(slot, Some(label));
                }
            }
            _ => {
                if let Some(mut label) = labels.take(slot) {
                    spoil(random, &mut label);
                    labels.put(slot, Some(label));
                }
            }
        }
        counts.add(alloc, random, words, labels, &spans);
        labels.put(slot, kept);
        labels.put(other, kept_other);
    }
    Ok(())
}

#[test]
fn spoiled_labels_are_refused_or_harmless(rt: HostRuntime) -> Result<(), Fail> {
    let alloc = rt.alloc();
    let mut random = Random::new(1);
    let mut counts = Counts::none();
    for program in PROGRAMS {
        let bytes = hex::decode(alloc, program)?;
        let words = Words::new(&bytes)?;
        let Some(mut labels) = labels_of(alloc, &words)? else {
            assert!(&rt; false, "it isn't accepted");
            return Ok(());
        };
        spoil_labels(alloc, &mut random, &words, &mut labels, &mut counts)?;
        assert!(&rt; labels.taken(alloc, &words).is_some());
    }
    assert_eq!(&rt; counts.wrong, 0);
    assert!(&rt; counts.refused > 600 && counts.taken > 100);
    Ok(())
}

#[test]
fn lower_bounds_are_refused_or_right(rt: HostRuntime) -> Result<(), Fail> {
    let alloc = rt.alloc();
    let mut random = Random::new(2);
    let mut counts = Counts::none();
    for program in PROGRAMS {
        let bytes = hex::decode(alloc, program)?;
        let words = Words::new(&bytes)?;
        let Some(mut labels) = labels_of(alloc, &words)? else {
            assert!(&rt; false, "it isn't accepted");
            return Ok(());
        };
        let spans = random_spans(alloc, &mut random)?;
        for by in 0..10 {
            labels.lower(by);
            counts.add(alloc, &mut random, &words, &labels, &spans);
            labels.lower(by.wrapping_neg());
        }
    }
    assert_eq!(&rt; counts.wrong, 0);
    assert!(&rt; counts.refused > 60 && counts.taken >= PROGRAMS.len());
    Ok(())
}

#[test]
fn labels_of_another_program_are_refused_or_harmless(rt: HostRuntime) -> Result<(), Fail> {
    let alloc = rt.alloc();
    let mut random = Random::new(3);
    let mut counts = Counts::none();
    for program in PROGRAMS {
        let mut bytes = hex::decode(alloc, program)?;
        let Some(labels) = labels_of(alloc, &Words::new(&bytes)?)? else {
            assert!(&rt; false, "it isn't accepted");
            return Ok(());
        };
        let spans = random_spans(alloc, &mut random)?;
        for _turn in 0..TURNS {
            let place = random.below(bytes.len());
            let by = random.one_of(&[1u8, 2, 4, 8, 16, 32, 64, 128]);
            let Some(was) = bytes.get(place).copied() else {
                continue;
            };
            if let Some(byte) = bytes.get_mut(place) {
                *byte = was ^ by;
            }
            if let Ok(words) = Words::new(&bytes) {
                counts.add(alloc, &mut random, &words, &labels, &spans);
            }
            if let Some(byte) = bytes.get_mut(place) {
                *byte = was;
            }
        }
    }
    assert_eq!(&rt; counts.wrong, 0);
    assert!(&rt; counts.refused > 300 && counts.taken > 30);
    Ok(())
}

/// Checks a faulty program under the labels of the right one, each time with one that says more than is known.
fn check_faulty(
    alloc: Global,
    random: &mut Random,
    words: &Words<'_>,
    labels: &mut Labels,
    counts: &mut Counts,
) -> Result<(), AllocError> {
    let spans = random_spans(alloc, random)?;
    for _turn in 0..FAULTY_TURNS {
        let slot = random.below(words.len());
        let kept = labels.copy_at(alloc, slot)?;
        if let Some(mut label) = labels.take(slot) {
            narrow_known_register(random, &mut label.state);
            labels.put(slot, Some(label));
        }
        counts.add(alloc, random, words, labels, &spans);
        labels.put(slot, kept);
    }
    Ok(())
}

#[test]
fn labels_that_hide_a_fault_are_refused(rt: HostRuntime) -> Result<(), Fail> {
    let alloc = rt.alloc();
    let mut random = Random::new(4);
    let mut counts = Counts::none();
    for (program, faulty) in FAULTY {
        let bytes = hex::decode(alloc, program)?;
        let Some(mut labels) = labels_of(alloc, &Words::new(&bytes)?)? else {
            assert!(&rt; false, "it isn't accepted");
            return Ok(());
        };
        let other = hex::decode(alloc, faulty)?;
        let words = Words::new(&other)?;
        check_faulty(alloc, &mut random, &words, &mut labels, &mut counts)?;
    }
    assert_eq!(&rt; counts.wrong, 0);
    assert!(&rt; counts.refused > 1_000);
    Ok(())
}
