//! From the least to the greatest integer of each domain.
ghost use Rattle.std.specs.Prelude.{◌≡◌, map, slice_get, IfOk};
ghost use Rattle.kb_logic.specs.Bounds.{domain_if, hull, integers, range_of};
ghost use Rattle.kb_logic.specs.Structures.{domain_at};
ghost use Rattle.size_stage.specs.Ranges.{range_view, ranges_in};
ghost use Rattle.std.specs.Option.{option_map};

use crate::domains::Domains;
use crate::ranges::Range;
use kb_logic::{DomainList, Elem, Memory};
use std::alloc::Global;

fn widened(n: i64, range: Option<Range>) -> Range
    ensures { range_view result ≡ hull n (option_map range_view range) }
{
    match range {
        None => Range { low: n, high: n },
        Some(range) => Range {
            low: if n < range.low { n } else { range.low },
            high: if range.high < n { n } else { range.high },
        },
    }
}

fn integers_among(domain: &[Elem]) -> Option<Range>
    ensures { option_map range_view result ≡ integers domain.now }
{
    let mut found = None;
    for elem in domain {
        if let Elem::Num(n) = elem {
            found = Some(widened(*n, found));
        }
    }
    found
}

/// From 0 to 0 where the domain has no integer.
fn range_among(domain: &[Elem]) -> Range
    ensures { range_view result ≡ range_of domain.now }
{
    match integers_among(domain) {
        Some(range) => range,
        None => Range { low: 0, high: 0 },
    }
}

/// The range of each domain.
pub fn domain_ranges(alloc: Global, domains: &DomainList) -> Result<Vec<Range>, Memory>
    ensures { IfOk result (λ rs. map range_view rs.items ≡ ranges_in domains.now) }
{
    let mut ranges = Vec::new(alloc);
    for domain in domains.as_slice() {
        ranges.push(range_among(domain.as_slice()))?;
    }
    Ok(ranges)
}

fn range_at(ranges: &[Range], ty: u32) -> Option<Range>
    ensures { result ≡ slice_get ranges.now ty }
{
    match ranges.get(ty as usize) {
        Some(range) => Some(*range),
        None => None,
    }
}

/// The range of a type.
pub fn type_range(domains: &Domains<'_, '_>, ranges: &[Range], ty: u32) -> Range
    requires { map range_view ranges.now ≡ ranges_in domains.now }
    ensures { range_view result ≡ range_of (domain_at domains.now ty) }
{
    match range_at(ranges, ty) {
        Some(range) => range,
        None => Range { low: 0, high: 0 },
    }
}

/// The range of a type that may be missing.
pub fn range_if(domains: &Domains<'_, '_>, ranges: &[Range], ty: Option<u32>) -> Range
    requires { map range_view ranges.now ≡ ranges_in domains.now }
    ensures { range_view result ≡ range_of (domain_if domains.now ty) }
{
    match ty {
        Some(ty) => type_range(domains, ranges, ty),
        None => Range { low: 0, high: 0 },
    }
}
