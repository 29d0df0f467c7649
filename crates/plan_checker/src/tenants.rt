//! Whether values fit their buffers, by one look at each.

ghost use Rattle.std.specs.Prelude.{◌≡◌, ℕ, ◌+◌, ◌<◌, length, map, slice_index_or, true, IfOk};
ghost use Rattle.std.specs.List.{All, range_with_len};
ghost use Rattle.plan_checker.specs.Buffers.{AreApart};
ghost use Rattle.plan_checker.specs.Tenants.{ComesNext, tenant_of};

use crate::channels::follows;
use plan_model::{Home, Life};
use std::alloc::{AllocError, Global};

/// A value in its buffer.
#[derive(Clone, Copy, Debug, PartialEq, Eq)]
pub(crate) struct Tenant {
    pub(crate) buffer: u32,
    pub(crate) life: Life,
    /// The index of the value.
    pub(crate) value: usize,
}

/// The value of an index.
fn tenant_of(lives: &[Life], homes: &[Home], value: usize) -> Tenant
    requires life { value < length lives.now }
    requires home { value < length homes.now }
    ensures { result ≡ tenant_of lives.now homes.now value }
{
    Tenant {
        buffer: homes[value].buffer,
        life: lives[value],
        value,
    }
}

/// The values in their buffers, in the order of the values.
fn all_tenants(alloc: Global, lives: &[Life], homes: &[Home]) -> Result<Vec<Tenant>, AllocError>
    requires { length lives.now ≡ length homes.now }
    ensures { IfOk result (λ v. v.items ≡ map (tenant_of lives.now homes.now) (range_with_len 0 (length homes.now))) }
{
    let values = 0..homes.len();
    values
        .map(|value| tenant_of(lives, homes, value))
        .collect(alloc)
}

/// Whether a value has a greater buffer than another one, or the same after it.
fn comes_next(first: Tenant, second: Tenant) -> bool
    ensures { result ≡ true → ComesNext first second }
{
    if first.buffer == second.buffer {
        return follows(first.life, second.life);
    }
    first.buffer < second.buffer
}

/// Whether each comes after the one before it.
fn are_in_turn(tenants: &[Tenant]) -> bool
    ensures { result ≡ true → (k : ℕ) (d : Tenant) → k + 1 < length tenants.now
        → ComesNext (slice_index_or tenants.now k d) (slice_index_or tenants.now (k + 1) d) }
{
    for k in 1..tenants.len() {
        if !comes_next(tenants[k - 1], tenants[k]) {
            return false;
        }
    }
    true
}

/// Sorts the values by buffer and birth, and says whether in each buffer each follows the one before it. Then any two
/// of one buffer may share it.
pub(crate) fn all_fit(alloc: Global, lives: &[Life], homes: &[Home]) -> Result<bool, AllocError>
    requires each { length lives.now ≡ length homes.now }
    requires lasting { All (λ x. x.born < x.dies) lives.now }
    ensures { IfOk result (λ fit. fit ≡ true → (j k : ℕ) → j < k → k < length homes.now → AreApart lives.now homes.now j k) }
{
    let mut tenants = all_tenants(alloc, lives, homes)?;
    tenants.sort_unstable_by_key(|tenant| (tenant.buffer, tenant.life.born));
    Ok(are_in_turn(&tenants))
}
