ghost use Rattle.std.specs.Prelude.{◌≡◌, ◌<◌, ◌≤◌, ◌+◌, ◌++◌, [], Some, length, take, drop, min};
ghost use Rattle.std.specs.Prelude.{IfOk, IsOk, OnErr};
ghost use Rattle.l2_io.specs.Known.{before, IsAtEnd, HasRisen};
ghost use Rattle.script_generator.specs.Script.{script};

use super::steps::Steps;
use super::text::{Text, put_opening};
use l2_io::{Failed, Source};
use std::marker::Model;

/// The script of a number, as a source of octets. It never fails, and takes no memory.
///
/// A script has a bearer with acknowledgement and one without, 2000 TTIs with SDUs of up to 1400
/// octets between them, damaged blocks and wrong feedback, three handovers, and a drain at its end.
#[derive(Drop)]
pub struct Script {
    // The lines at hand, and how many of their octets have been given.
    text: Text,
    at: usize,
    behind: Steps,
}

impl Model for Script {
    ghost use Rattle.std.specs.Prelude.{ℕ, List, ◌++◌, ◌≤◌, length, drop};

    ghost Value = { List ℕ };

    ghost view = { λ s. drop s.at s.text.items ++ s.behind };

    ghost invariant = { λ s. s.at ≤ length s.text.items };
}

// Makes the next lines, where those at hand have been given.
fn make_more(text: &mut Text, at: &mut usize, behind: &mut Steps)
    requires { at.old ≤ length text.old.items }
    ensures left { drop at.new text.new.items ++ behind.new
        ≡ drop at.old text.old.items ++ behind.old }
    ensures place { at.new ≤ length text.new.items }
    ensures end { at.new ≡ length text.new.items → behind.new ≡ [] }
{
    if *at < text.len() {
        return;
    }
    *at = 0;
    behind.make(text);
}

// Copies as much from a place on as there is and as goes in.
fn give(from: &[u8], at: usize, into: &mut [u8]) -> usize
    requires { at ≤ length from.now }
    ensures room { result ≤ length into.new }
    ensures place { at + result ≤ length from.now }
    ensures given { drop at from.now ≡ take result into.new ++ drop (at + result) from.now }
    ensures end { 0 < length into.old → result ≡ 0 → at ≡ length from.now }
{
    let (_, rest) = from.split_at(at);
    let count = rest.len().min(into.len());
    let (front, _) = rest.split_at(count);
    into[..count].copy_from_slice(front);
    count
}

impl Script {
    /// The script of a number.
    #[tactic(auto, unfolding(crate::specs::Script::script))]
    pub fn new(number: u32) -> Script
        ensures { result ≡ script number }
    {
        let mut text = Text::new();
        put_opening(&mut text);
        Script {
            text,
            at: 0,
            behind: Steps::new(number),
        }
    }

    // Gives some of what is left, and nothing only at the end.
    fn give(&mut self, into: &mut [u8]) -> usize
        requires { 0 < length into.old }
        ensures room { result ≤ length into.new }
        ensures given { self.old ≡ take result into.new ++ self.new }
        ensures end { result ≡ 0 → self.new ≡ [] }
    {
        make_more(&mut self.text, &mut self.at, &mut self.behind);
        let count = give(self.text.as_slice(), self.at, into);
        self.at += count;
        count
    }
}

impl Source for Script {
    ghost left = { λ s. Some s };

    ghost faults = { λ _. 0 };

    fn read(&mut self, into: &mut [u8]) -> Result<usize, Failed>
        requires { 0 < length into.old }
        ensures bound { IfOk result (λ n. n ≤ length into.new) }
        ensures given { IfOk result (λ n. Some self.old ≡ before (take n into.new) (Some self.new)) }
        ensures end { IfOk result (λ n. n ≡ 0 → IsAtEnd (Some self.new)) }
        ensures kept { OnErr result (Some self.new ≡ Some self.old) }
        ensures cause { OnErr result (HasRisen 0 0) }
        ensures count { 0 ≤ 0 }
        ensures fails { IsOk result }
        ensures read { IfOk result (λ n. (n ≡ min (length self.old) (length into.old))
            × (self.new ≡ drop n self.old)) }
    {
        let mut count = 0;
        while count < into.len() {
            let (_, free) = into.split_at_mut(count);
            let given = self.give(free);
            if given == 0 {
                break;
            }
            count += given;
        }
        Ok(count)
    }
}
