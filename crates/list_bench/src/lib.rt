// The bench that a list runs on: the model target with its memory behind its line, and what the list gives for a call, with how far that
// is used.
#![tactic(auto)]

ghost use Rattle.std.specs.Prelude.{ℕ, ◌≡◌, ◌+◌, ◌*◌, ◌≤◌, ◌<◌, [], ◌∷◌, ◌%◌, ◌^◌, length, take, drop, cond, IsNone};
ghost use Rattle.list_records.specs.Allowed.{fault_count, answer_count, allowed};

use list_records::Given;
use target::{Act, Target};
use wire::{Answer, Call};
use wire_numbers::TransportCall;

// A target and its memory. Of the call under way `given` is what the list gives for it, `made` how many transport calls were made, and
// `met` how many faults they met.
#[derive(Drop)]
pub struct Bench<'m, 'l> {
    target: Target,
    memory: &'m mut [u8],
    given: Given<'l>,
    made: u32,
    met: usize,
}

// Of a transport call the target sees the transfers; the others reach no register.
fn call_of(c: TransportCall) -> Call {
    if c.kind == b'T' {
        return Call::Transfer {
            request: c.request,
            word: c.word,
        };
    }
    Call::Connect
}

impl<'m, 'l> Bench<'m, 'l> {
    // A bench on which nothing was done yet.
    pub fn new(target: Target, memory: &'m mut [u8]) -> Bench<'m, 'l>
        ensures target { result.target ≡ target }
        ensures memory { result.memory.now ≡ memory.entry.now }
        ensures given { fault_count result.given ≡ 0 }
        ensures made { result.made ≡ 0 }
        ensures met { result.met ≡ 0 }
    {
        Bench {
            target,
            memory,
            given: Given::nothing(),
            made: 0,
            met: 0,
        }
    }

    // The registers, as a list prints them. CDBGPWRUPREQ is bit 0 of the requests, CSYSPWRUPREQ bit 1.
    pub fn registers(&self) -> [u32; 7]
        ensures { result
            ≡ self.now.target.dpidr
            ∷ self.now.target.select
            ∷ (2 * cond self.now.target.csyspwrupreq 1 0 + cond self.now.target.cdbgpwrupreq 1 0)
            ∷ cond self.now.target.sticky 1 0
            ∷ self.now.target.rdbuff
            ∷ self.now.target.csw
            ∷ self.now.target.tar
            ∷ [] }
    {
        let t = self.target;
        [
            t.dpidr,
            t.select,
            2 * u32::from(t.csyspwrupreq) + u32::from(t.cdbgpwrupreq),
            u32::from(t.sticky),
            t.rdbuff,
            t.csw,
            t.tar,
        ]
    }

    // Puts bytes into memory from an offset on.
    pub fn store(&mut self, offset: u32, bytes: &[u8])
        ensures target { self.new.target ≡ self.old.target }
        ensures room { length self.new.memory.now ≡ length self.old.memory.now }
        ensures before { take offset self.new.memory.now ≡ take offset self.old.memory.now }
    {
        list_records::store(offset, bytes, self.memory);
    }

    // A part of memory.
    pub fn part(&self, offset: u32, count: u16) -> &[u8]
        ensures within { offset + count ≤ length self.now.memory.now → result.now ≡ take count (drop offset self.now.memory.now) }
        ensures past_end { length self.now.memory.now < offset + count → result.now ≡ [] }
    {
        list_records::part_of(offset, count, self.memory)
    }

    // What is given for the next call.
    pub fn give(&mut self, given: Given<'l>)
        ensures given { self.new.given ≡ given.entry }
        ensures target { self.new.target ≡ self.old.target }
        ensures memory { self.new.memory.now ≡ self.old.memory.now }
    {
        self.given = given;
    }

    // A call starts, which may make as many transport calls as are answered here.
    pub fn start(&mut self, budget: u32) -> u32
        ensures value { result ≡ allowed self.old.given budget }
        ensures made { self.new.made ≡ 0 }
        ensures met { self.new.met ≡ 0 }
        ensures given { self.new.given ≡ self.old.given }
        ensures target { self.new.target ≡ self.old.target }
        ensures memory { self.new.memory.now ≡ self.old.memory.now }
    {
        self.made = 0;
        self.met = 0;
        self.given.allowed(budget)
    }

    // How many transport calls were made.
    pub fn made(&self) -> u32
        ensures { result ≡ self.now.made }
    {
        self.made
    }

    // A call is over. What is left of its answers comes late: the next one.
    pub fn finish(&mut self) -> Option<Answer>
        ensures late { answer_count self.old.given ≤ self.old.made → IsNone result }
        ensures given { fault_count self.new.given ≡ 0 }
        ensures target { self.new.target ≡ self.old.target }
        ensures memory { self.new.memory.now ≡ self.old.memory.now }
    {
        let late = self.given.answer(self.made);
        self.given = Given::nothing();
        late
    }

    // What the line does with the transport call that is made: the next fault that is given, if it falls on this call.
    fn act(&mut self) -> Act
        ensures made { self.new.made ≡ self.old.made }
        ensures given { self.new.given ≡ self.old.given }
    {
        match self.given.fault(self.met) {
            Some(fault) if fault.call == self.made => {
                self.met = self.met.wrapping_add(1);
                fault.act
            }
            _ => Act::Deliver,
        }
    }

    // A transport call over the line.
    fn over_line(&mut self, c: TransportCall) -> Answer
        ensures made { self.new.made ≡ self.old.made }
        ensures given { self.new.given ≡ self.old.given }
    {
        let act = self.act();
        let d = target_line::over_line(self.target, call_of(c), act, self.memory);
        self.target = d.target;
        d.answer
    }

    // What is heard of the next transport call: an answer that is given, or what comes over the line.
    pub fn hear(&mut self, c: TransportCall) -> Answer
        ensures made { self.new.made ≡ (self.old.made + 1) % 2 ^ 32 }
        ensures given { self.new.given ≡ self.old.given }
    {
        let given = self.given.answer(self.made);
        self.made = self.made.wrapping_add(1);
        match given {
            Some(answer) => answer,
            None => self.over_line(c),
        }
    }
}
