//! The lines of how many steps a run of a program that loops has left at most.
use filters::filter::longest_run;
use label_potentials::potential::{Base, Holder, Potential, Term};
use span_context::context::{LINK_LIMIT, TEXT_LIMIT};
use std::alloc::AllocError;

/// Appends so many times what follows, added or taken away.
fn push_times(text: &mut String, times: i64) -> Result<(), AllocError> {
    let sign = if times < 0 { '-' } else { '+' };
    write!(text, " {sign} {} * ", times.unsigned_abs())
}

/// Appends so many steps for each byte of a length.
fn push_per_byte(text: &mut String, steps: i32, length: &str) -> Result<(), AllocError> {
    if steps == 0 {
        return Ok(());
    }
    push_times(text, i64::from(steps))?;
    text.push_str(length)
}

fn push_holder(text: &mut String, holder: Holder) -> Result<(), AllocError> {
    match holder {
        Holder::Register(number) => write!(text, "r{number}"),
        Holder::StackSlot(index) => {
            let below = 512_u64.saturating_sub(u64::from(index).saturating_mul(8));
            write!(text, "[stack-{below}]")
        }
    }
}

/// Appends what a term takes away.
fn push_term(text: &mut String, term: &Term) -> Result<(), AllocError> {
    let region = match term.base {
        Base::Zero => return push_holder(text, term.holder),
        Base::Text => "text",
        Base::Link => "link",
    };
    text.push('(')?;
    push_holder(text, term.holder)?;
    write!(text, " - {region})")
}

/// Appends how many steps are left at most.
pub(crate) fn push_potential(text: &mut String, potential: &Potential) -> Result<(), AllocError> {
    write!(text, "  steps left <= {}", potential.constant)?;
    push_per_byte(text, potential.per_byte, "length")?;
    push_per_byte(text, potential.per_link_byte, "link length")?;
    for term in &potential.less {
        if term.weight != 0 {
            push_times(text, i64::from(term.weight).saturating_neg())?;
            push_term(text, term)?;
        }
    }
    text.push('\n')
}

/// Appends a bound of all steps, where it is over what a run may take.
pub(crate) fn push_excess(text: &mut String, all: &Potential) -> Result<(), AllocError> {
    let limit = longest_run() as u64;
    let per_text = i64::from(all.per_byte).saturating_mul(TEXT_LIMIT as i64);
    let per_link = i64::from(all.per_link_byte).saturating_mul(LINK_LIMIT as i64);
    let most = all
        .constant
        .saturating_add(per_text)
        .saturating_add(per_link);
    let is_over = match i64::try_from(limit) {
        Ok(limit) => most > limit,
        Err(_) => false,
    };
    if !is_over {
        return Ok(());
    }
    let constant = all.constant;
    let per_byte = all.per_byte;
    let per_link_byte = all.per_link_byte;
    writeln!(
        text,
        "steps <= {constant} + {per_byte} * length + {per_link_byte} * link length, over {limit} on the longest texts"
    )
}
