//! How many elements types have, without a list of them.
ghost use Rattle.std.specs.Prelude.{◌≡◌, ℕ, map, IfOk};
ghost use Rattle.std.specs.List.{AllByRecursion};
ghost use Rattle.stage_definitions.specs.SizesStage.{capped};
ghost use Rattle.size_stage.specs.Counted.{count_in, IsCountable};

use data_domains::types::TypeData;
use std::alloc::{AllocError as Memory, Global};

/// The number, where it is not the greatest of 64 bits, at which counts stop; no list has so many items.
fn exact(count: u64) -> Result<u64, Memory>
    ensures { IfOk result (λ n. (m : ℕ) → count ≡ capped m → n ≡ m) }
{
    if count == u64::MAX {
        return Err(Memory);
    }
    Ok(count)
}

fn count_of(of: &TypeData<'_>) -> Result<u64, Memory>
    requires { IsCountable of.now }
    ensures { IfOk result (λ n. n ≡ count_in of.now) }
{
    exact(of.elements.count())
}

/// How many elements each of these types has.
pub fn counts_of(alloc: Global, types: &[TypeData<'_>]) -> Result<Vec<u64>, Memory>
    requires { AllByRecursion IsCountable types.now }
    ensures { IfOk result (λ ns. ns.items ≡ map count_in types.now) }
{
    let mut counts = Vec::new(alloc);
    for data in types {
        counts.push(count_of(data)?)?;
    }
    Ok(counts)
}
