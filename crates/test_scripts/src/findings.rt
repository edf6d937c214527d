use feeds::item::{Finding, Item};
use std::alloc::{AllocError, Global};
use version_history::published::Naming;

/// The most findings that are told each.
const FEW: usize = 12;

fn finding_text(alloc: Global, finding: Finding) -> Result<String, AllocError> {
    match finding {
        Finding::Hit {
            version,
            span,
            verdict,
        } => format!(in alloc; "{version}:{span}={verdict}"),
        Finding::End { version, spans } => format!(in alloc; "{version}/{spans}"),
    }
}

fn mixed(digest: u64, number: u64) -> u64 {
    digest.wrapping_mul(31).wrapping_add(number)
}

fn digest_of(findings: &[Finding]) -> u64 {
    let mut digest = 0;
    for finding in findings {
        digest = match *finding {
            Finding::Hit {
                version,
                span,
                verdict,
            } => mixed(mixed(mixed(digest, version), span as u64), verdict),
            Finding::End { version, spans } => mixed(mixed(digest, version), spans as u64),
        };
    }
    digest
}

fn push_each(alloc: Global, told: &mut String, findings: &[Finding]) -> Result<(), AllocError> {
    for (index, finding) in findings.iter().enumerate() {
        if index > 0 {
            told.push(' ')?;
        }
        told.push_str(finding_text(alloc, *finding)?.as_str())?;
    }
    Ok(())
}

/// Tells findings: each where they are few, or how many they are, the last, and their digest.
pub fn push_findings(
    alloc: Global,
    told: &mut String,
    findings: &[Finding],
) -> Result<(), AllocError> {
    if findings.is_empty() {
        return told.push_str("no item");
    }
    if findings.len() <= FEW {
        return push_each(alloc, told, findings);
    }
    let text = format!(in alloc;
        "{} items, digest {}, the last ",
        findings.len(),
        digest_of(findings)
    )?;
    told.push_str(text.as_str())?;
    push_each(alloc, told, &findings[findings.len() - 1..])
}

/// Tells what a queue or sink has at the end of a case, if it has anything.
pub fn push_end(
    alloc: Global,
    told: &mut String,
    kind: &str,
    index: usize,
    findings: &[Finding],
) -> Result<(), AllocError> {
    if findings.is_empty() {
        return Ok(());
    }
    let text = format!(in alloc; "{kind} {index}: ")?;
    told.push_str(text.as_str())?;
    push_findings(alloc, told, findings)?;
    told.push('\n')
}

/// The findings of items.
pub fn findings_of<N: Naming>(
    alloc: Global,
    items: &[Item<N>],
) -> Result<Vec<Finding>, AllocError> {
    let mut findings = Vec::with_capacity(alloc, items.len())?;
    for item in items {
        findings.push(item.what)?;
    }
    Ok(findings)
}
