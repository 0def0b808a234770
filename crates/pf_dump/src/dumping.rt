//! A configuration as a script.

ghost use Rattle.std.specs.Prelude.{◌≡◌, true, IfOk, IfSome, IfNone};
ghost use Rattle.pf_dump.specs.Scripts.{Gives};
ghost use Rattle.pf_dump.specs.Done.{IsDoneTo};
ghost use Rattle.pf_dump.specs.Written.{script_of};

use crate::replay::replayed;
use crate::same::is_same;
use crate::script::script_of;
use pf_config::Config;
use std::alloc::{AllocError, Global};

/// Whether a script of `ctl`'s form, done on an empty configuration, gives this one: each of its lines is a change, a
/// ruleset in it has an end, and it leaves the same skipped interfaces, rules and tables at the same paths.
pub fn gives(alloc: Global, script: &[u8], config: &Config) -> Result<bool, AllocError>
    ensures gives { IfOk result (λ b. b ≡ true → Gives script.now config.now) }
    ensures done { IfOk result (λ b. b ≡ true → IsDoneTo script.now config.now) }
    ensures back { IfOk result (λ b. IsDoneTo script.now config.now → b ≡ true) }
{
    match replayed(alloc, script)? {
        Some(made) => is_same(alloc, &made, config),
        None => Ok(false),
    }
}

/// A script that gives the configuration: one load a path, and before it the entries of its tables where its text would
/// be too long with them. None exactly where that script doesn't give it: where a path's rules are too long for an
/// entry as they are shown.
pub fn dump(alloc: Global, config: &Config) -> Result<Option<Vec<u8>>, AllocError>
    ensures gives { IfOk result (λ o. IfSome o (λ s. Gives s.items config.now)) }
    ensures done { IfOk result (λ o. IfSome o (λ s. IsDoneTo s.items config.now)) }
    ensures script { IfOk result (λ o. IfSome o (λ s. s.items ≡ script_of config.now)) }
    ensures none { IfOk result (λ o. IfNone o (IsDoneTo (script_of config.now) config.now → ⊥)) }
{
    let script = script_of(alloc, config)?;
    let is_good = gives(alloc, &script, config)?;
    Ok(is_good.then_some(script))
}
