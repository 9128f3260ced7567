//! Bearers on their way from one base station to another (TS 36.300 10.1.2): a bearer that was
//! stopped is released into a package, and the package is accepted where it arrives.
#![tactic(auto)]

ghost use Rattle.std.specs.Prelude.{◌≡◌, IfOk, IfErr};
ghost use Rattle.bearer.specs.Bearer.{of, alive};
ghost use Rattle.bearer.specs.Lives.{restarted};

use bearer::{Bearer, Released, Running, Stopped};
use eps_sec::Keys;
use l2_bits::NoMemory;
use std::marker::Model;

/// A bearer on its way: its configuration, with that of its logical channel, and its side; the SDUs
/// that are kept with their COUNTs and with what RLC and status reports have confirmed of them, the
/// SDUs that wait with their discard timers, the receive state, and the SDUs that are held out of
/// sequence.
///
/// It can't be let go: it is spent by `accept`, or by `abandon`.
pub struct Package {
    bearer: Bearer<Released>,
}

impl Model for Package {
    ghost use Rattle.bearer.specs.Bearer.{Of};
    ghost use Rattle.bearer.specs.declared.flow.StoppedFlow.{StoppedFlow};

    ghost Value = { Of StoppedFlow };

    ghost view = { λ p. p.bearer };
}

/// Releases a stopped bearer. Nothing of it is lost.
pub fn release(bearer: Bearer<Stopped>) -> Package
    ensures { result ≡ bearer }
{
    Package {
        bearer: bearer.release(),
    }
}

/// Accepts a package: the bearer begins its next life under other keys, as `Bearer::restart` says.
/// An `Err` gives back the package as it was.
pub fn accept(package: Package, keys: &Keys) -> Result<Bearer<Running>, (Package, NoMemory)>
    ensures ok { IfOk result
        (λ b. b ≡ of «package».channel (alive (restarted «package».state keys.now))) }
    ensures err { IfErr result (λ e. e.0 ≡ «package») }
{
    let Package { bearer } = package;
    match bearer.accept().restart(keys) {
        Ok(bearer) => Ok(bearer),
        Err((bearer, no_memory)) => Err((release(bearer), no_memory)),
    }
}

/// Spends a package without using it: for the path of want of memory alone.
pub fn abandon(package: Package) {
    let Package { bearer } = package;
    bearer.abandon();
}
