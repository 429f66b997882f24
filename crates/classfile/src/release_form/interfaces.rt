//! Interfaces that are listed twice (JVMS 4.1).
ghost use Rattle.std.specs.Prelude.{◌≡◌, map, IfOk};
ghost use Rattle.classfile.specs.release.ClassRules.{interfaces_stand_twice};

use names::MetNames;
use pool::Pool;
use std::alloc::{AllocError, Global};

/// Whether a class is listed twice among these, by its name.
#[tactic(auto, unfolding(crate::specs::release::ClassRules::interfaces_stand_twice))]
pub fn interfaces_stand_twice(
    alloc: Global,
    pool: &Pool<'_>,
    interfaces: &[u16],
) -> Result<bool, AllocError>
    ensures { IfOk result (λ r. r ≡ interfaces_stand_twice pool.now (map (λ n. n) interfaces.now)) }
{
    if interfaces.len() < 2 {
        return Ok(false);
    }
    let mut met = MetNames::new(alloc);
    for (n, index) in interfaces.iter().enumerate() {
        if let Ok(name) = pool.class_name(*index) {
            if met.meet(name.bytes(), n)? {
                return Ok(true);
            }
        }
    }
    Ok(false)
}
