// What a start runs on. Once it has ended, at the cut or by a wait that was not answered, every further step leaves it as it is.
ghost use Rattle.std.specs.Prelude.{[], ◌∷◌, ◌≡◌, ◌+◌, ◌<◌, ◌≤◌};
ghost use Rattle.order.specs.Places as places;
ghost use Rattle.order.specs.Order as list;
ghost use Rattle.startup.specs.Machine.{begin_of, going};

use order::{Awaited, PLACES};

// The register file, the stores left before the cut, the polls made, the next of the answers, and the wait that was not answered.
#[derive(Clone, Copy, PartialEq, Eq)]
pub(crate) struct Machine {
    pub file: [u32; PLACES],
    pub left: u8,
    pub polls: u32,
    pub at: usize,
    pub stop: Option<Awaited>,
}

// A start under way: its machine, the answers to its polls, and the poll limit of each wait.
#[derive(Drop)]
pub(crate) struct Run<'a> {
    pub machine: Machine,
    pub answers: &'a [u8],
    pub limit: u32,
    pub ghost limited: { limit ≤ 65535 },
}

impl<'a> Run<'a> {
    ghost use Rattle.startup.specs.Machine.{Room, Stored, Put, Polls, Waited};
    ghost use Rattle.startup.specs.Run.{Begun, Same};

    // Before the first store.
    pub(crate) fn begin(file: [u32; PLACES], cut: u8, answers: &'a [u8], limit: u32) -> Run<'a>
        requires { limit ≤ 65535 }
        ensures { Begun file cut answers.now limit result }
    {
        let machine = Machine {
            file,
            left: cut,
            polls: 0,
            at: 0,
            stop: None,
        };
        Run {
            machine,
            answers,
            limit,
        }
    }

    // Whether the start goes on: neither cut nor ended by a wait.
    #[tactic(auto, unfolding(crate::specs::Machine::going))]
    fn goes_on(&self) -> bool
        ensures { result ≡ going self.now.machine }
    {
        self.machine.left != 0 && self.machine.stop.is_none()
    }

    // One store: the file becomes the one given.
    #[tactic(auto, using(crate::proofs::Runs::some_left), unfolding(crate::specs::Machine::store_of, crate::specs::Machine::live))]
    pub(crate) fn store(&mut self, file: [u32; PLACES])
        ensures machine { Stored self.old.machine file self.new.machine }
        ensures same { Same self.old self.new }
    {
        if self.goes_on() {
            self.machine.file = file;
            self.machine.left -= 1;
        }
    }

    // A store of one place.
    pub(crate) fn set(&mut self, place: usize, value: u32)
        requires { place < places.PLACES }
        ensures machine { Put self.old.machine ((place, value) ∷ []) self.new.machine }
        ensures same { Same self.old self.new }
    {
        let mut file = self.machine.file;
        file[place] = value;
        self.store(file);
    }

    // Polls until a 1 is taken or the limit is reached, and says which (by `at`, which the next wait goes on from); a poll past the end takes nothing, isn't ready and counts.
    fn poll(&mut self) -> bool
        requires { self.old.machine.polls + 65535 ≤ 4294967295 }
        ensures machine { Polls self.old.answers.now self.old.limit self.old.machine result self.new.machine }
        ensures same { Same self.old self.new }
    {
        for _ in 0..self.limit {
            self.machine.polls += 1;
            if self.machine.at < self.answers.len() {
                let ready = self.answers[self.machine.at] == 1;
                self.machine.at += 1;
                if ready {
                    return true;
                }
            }
        }
        false
    }

    // The wait for a flag: where its polls end unanswered, so does the start.
    pub(crate) fn wait(&mut self, flag: Awaited)
        requires { Room (list.wait flag ∷ []) self.old.machine }
        ensures machine { Waited self.old.answers.now self.old.limit self.old.machine flag self.new.machine }
        ensures same { Same self.old self.new }
    {
        if self.goes_on() && !self.poll() {
            self.machine.stop = Some(flag);
        }
    }
}
