// Doors in memory.
ghost use Rattle.std.specs.Prelude.{◌≡◌, ◌≤◌, ◌+◌, All, length, vec_capacity};
ghost use Rattle.swh_memory_input.specs.Links.{IsUnused};

use crate::MemoryLink;
use std::alloc::Global;
use std::collections::VecDeque;
use swh_memory_failures::Failures;
use swh_outside::{Doors, OutFault};

/// Doors at which given links come in, one after the other, and which keep those that are given back. A link that is
/// given back where none is out is let go.
#[derive(Drop)]
pub struct MemoryDoors {
    opens: bool,
    coming: VecDeque<MemoryLink>,
    back: Vec<MemoryLink>,
    places: usize,
    failures: Failures,
    ghost unused: { All IsUnused coming.items },
    ghost reserved: { length back.items + places ≤ vec_capacity back },
}

impl MemoryDoors {
    ghost use Rattle.std.specs.Prelude.{[], false, true};
    ghost use Rattle.swh_memory_failures.specs.Tally.{fresh_tally};
    ghost use Rattle.swh_memory_input.specs.Doors.{
      doors_open,
      doors_coming,
      doors_back,
      doors_places,
      doors_faults,
      doors_tally,
    };

    /// Doors at which no link comes in: each call that can fail does so and is counted.
    pub fn new(alloc: Global) -> Self
        ensures shut { doors_open result ≡ false }
        ensures coming { doors_coming result ≡ [] }
        ensures back { doors_back result ≡ [] }
        ensures places { doors_places result ≡ 0 }
        ensures failing { doors_tally result ≡ fresh_tally [] }
        ensures no_fault { doors_faults result ≡ 0 }
    {
        MemoryDoors {
            opens: false,
            coming: VecDeque::new(alloc),
            back: Vec::new(alloc),
            places: 0,
            failures: Failures::at(Vec::new(alloc)),
        }
    }

    /// Doors at which these links come in, the first at the front. Calls of `bind` and `accept` with the listed
    /// numbers, from 0, will fail, and so will an `accept` behind the last link.
    pub fn with_links(alloc: Global, links: Vec<MemoryLink>, failing: Vec<u64>) -> Self
        requires { All IsUnused links.items }
        ensures open { doors_open result ≡ true }
        ensures coming { doors_coming result ≡ links.items }
        ensures back { doors_back result ≡ [] }
        ensures places { doors_places result ≡ 0 }
        ensures failing { doors_tally result ≡ fresh_tally failing.items }
        ensures no_fault { doors_faults result ≡ 0 }
    {
        MemoryDoors {
            opens: true,
            coming: VecDeque::from(links),
            back: Vec::new(alloc),
            places: 0,
            failures: Failures::at(failing),
        }
    }

    /// The links that were given back, the last at the end, as they were then.
    pub fn links_back(&self) -> &[MemoryLink]
        ensures { result.now ≡ doors_back self.now }
    {
        self.back.as_slice()
    }

    /// How often they have failed.
    pub fn faults(&self) -> u64
        ensures { result ≡ doors_faults self.now }
    {
        self.failures.count()
    }
}

impl Doors for MemoryDoors {
    ghost use Rattle.std.specs.Prelude.{◌-◌, ◌++◌, ◌∷◌, ◌<◌, [], false, is_err, IfOk, OnOk, OnErr};
    ghost use Rattle.swh_memory_failures.specs.Answers.{has_failed};
    ghost use Rattle.swh_memory_failures.specs.Tally.{tallied};
    ghost use Rattle.swh_memory_input.specs.Doors.{
      doors_open,
      doors_coming,
      doors_back,
      doors_given_back,
      doors_places,
      doors_faults,
      doors_tally,
      is_bind_to_fail,
      is_accept_to_fail,
    };
    ghost use Rattle.swh_memory_input.specs.Links.{link_given, link_ended, link_taken, link_faults};
    ghost use Rattle.swh_outside.specs.Causes.{HasOutCause};

    type L = MemoryLink;

    ghost tells = { Unit {0} };

    ghost given_back = { doors_given_back };

    ghost places = { doors_places };

    ghost faults = { doors_faults };

    fn bind(&mut self, _addr: &str) -> Result<(), OutFault>
        ensures fails { is_err result ≡ is_bind_to_fail self.old }
        ensures counted { doors_tally self.new ≡ tallied (is_err result) (doors_tally self.old) }
        ensures cause { HasOutCause (doors_faults self.old) (doors_faults self.new) result }

        // What it leaves as it was.
        ensures same_open { doors_open self.new ≡ doors_open self.old }
        ensures same_coming { doors_coming self.new ≡ doors_coming self.old }
        ensures same_back { doors_back self.new ≡ doors_back self.old }
        ensures same_places { doors_places self.new ≡ doors_places self.old }
    {
        let fails = self.failures.next_fails();
        if fails || !self.opens {
            return Err(OutFault::from(self.failures.refuse()));
        }
        Ok(())
    }

    fn accept(&mut self) -> Result<MemoryLink, OutFault>
        ensures no_fault { IfOk result (λ link. link_faults link ≡ 0) }
        ensures nothing_given { IfOk result (λ link. link_given link ≡ []) }
        ensures nothing_ended { IfOk result (λ link. link_ended link ≡ false) }
        ensures nothing_taken { IfOk result (λ link. link_taken link ≡ []) }
        ensures next { IfOk result (λ link. doors_coming self.old ≡ link ∷ doors_coming self.new) }
        ensures none { OnErr result (doors_coming self.new ≡ doors_coming self.old) }
        ensures place { OnOk result (doors_places self.new ≡ doors_places self.old + 1) }
        ensures no_place { OnErr result (doors_places self.new ≡ doors_places self.old) }
        ensures fails { has_failed result ≡ is_accept_to_fail self.old }
        ensures counted { doors_tally self.new ≡ tallied (has_failed result) (doors_tally self.old) }
        ensures cause { HasOutCause (doors_faults self.old) (doors_faults self.new) result }

        // What it leaves as it was.
        ensures same_open { doors_open self.new ≡ doors_open self.old }
        ensures same_back { doors_back self.new ≡ doors_back self.old }
    {
        let fails = self.failures.next_fails();
        if fails || self.coming.is_empty() {
            return Err(OutFault::from(self.failures.refuse()));
        }
        let Some(places) = self.places.checked_add(1) else {
            return Err(OutFault::Memory);
        };
        self.back.reserve(places)?;
        let Some(link) = self.coming.pop_front() else {
            unreachable!()
        };
        self.places = places;
        Ok(link)
    }

    fn back(&mut self, link: MemoryLink)
        ensures noted { 0 < doors_places self.old → doors_back self.new ≡ doors_back self.old ++ link ∷ [] }
        ensures unplaced { doors_places self.old ≡ 0 → doors_back self.new ≡ doors_back self.old }
        ensures place { doors_places self.new ≡ doors_places self.old - 1 }
        ensures same_tally { doors_tally self.new ≡ doors_tally self.old }

        // What it leaves as it was.
        ensures same_open { doors_open self.new ≡ doors_open self.old }
        ensures same_coming { doors_coming self.new ≡ doors_coming self.old }
    {
        if self.places == 0 {
            return;
        }
        self.places -= 1;
        self.back.push_reserved(link);
    }
}
