// The numbers of a log's space, and what is computed of them: each answer is what a definition of the machine says of the state.
ghost use Rattle.std.specs.Prelude.{◌≡◌, ◌≤◌, ◌<◌, ◌^◌};
ghost use Rattle.clfs_lsn.specs.Limits.{most_containers};
ghost use Rattle.clfs_lsn.specs.Lsn.{container_of};
ghost use Rattle.clfs_model.specs.Live.{active, hold};
ghost use Rattle.clfs_model.specs.Policies.{needed_containers};
ghost use Rattle.clfs_model.specs.Space.{containers_for_reserved, free, grown, grown_containers, growth_rate, reserved, size_limit, with_containers};
ghost use Rattle.clfs_model.specs.Valid.{IsValid};

use clfs_lsn::{FEWEST_CONTAINERS, Lsn, MOST_CONTAINERS, Place, Shape};
use clfs_model::State;
use clfs_policy::Policies;
use clfs_space::{free_sectors, growth, least_containers};
use clfs_told::Told;
use std::marker::Model;

/// What a log has once it has grown for a call, or has not.
#[derive(Clone, Copy)]
pub struct Room {
    /// How many containers it has.
    pub containers: u32,
    /// The sectors that appends can surely take.
    pub free: u32,
}

/// What a log has of space, at one moment.
#[derive(Drop)]
pub struct Space {
    shape: Shape,
    place: Place,
    // The least LSN that the log still needs.
    needed: Lsn,
    containers: u32,
    // The sectors that all areas hold.
    held: u32,
    policies: Policies,
    // The state that these are of, which only clauses read.
    state: Told<State>,
}

impl Model for Space {
    ghost use Rattle.clfs_model.specs.declared.state.State.{State as LogState};
    ghost use Rattle.clfs_room.specs.Kept.{IsKept};

    ghost Value = { LogState };

    ghost view = { λ space. space.state.value };

    ghost invariant = { IsKept };
}

impl Space {
    /// What a log has of space, by the numbers of its state.
    pub fn new(
        shape: Shape,
        place: Place,
        needed: Lsn,
        containers: u32,
        held: u32,
        policies: Policies,
        state: &Told<State>,
    ) -> Space
        requires shape { shape ≡ state.now.value.shape }
        requires place { place ≡ state.now.value.place }
        requires needed { needed ≡ hold state.now.value }
        requires low { container_of needed ≤ place.container }
        requires containers { containers ≡ state.now.value.containers }
        requires held { held ≡ reserved state.now.value }
        requires maximum { policies.maximum ≡ state.now.value.maximum }
        requires minimum { policies.minimum ≡ state.now.value.minimum }
        requires growth { policies.growth ≡ state.now.value.growth }
        requires automatic { policies.automatic ≡ state.now.value.automatic }
        requires valid { IsValid state.now.value }
        ensures { result ≡ state.now.value }
    {
        Space {
            shape,
            place,
            needed,
            containers,
            held,
            policies,
            state: state.next(&()),
        }
    }

    /// How many containers the log has.
    pub fn containers(&self) -> u32
        ensures value { result ≡ self.now.containers }
        ensures few { result ≤ most_containers }
    {
        self.containers
    }

    /// How many of them are in use.
    pub fn active(&self) -> u32
        ensures value { result ≡ active self.now }
        ensures few { result ≤ self.now.containers }
    {
        self.place.container - self.needed.container() + 1
    }

    // The sectors that appends can surely take where the log has so many containers.
    fn free_in(&self, containers: u32) -> u32
        requires enough { active self.now ≤ containers }
        requires few { containers ≤ most_containers }
        ensures { result ≡ free (with_containers containers self.now) }
    {
        free_sectors(&self.shape, &self.place, self.needed, containers)
    }

    /// The sectors that appends can surely take.
    pub fn free(&self) -> u32
        ensures value { result ≡ free self.now }
        ensures few { result < 2 ^ 31 }
    {
        self.free_in(self.containers)
    }

    /// The sectors that all areas hold.
    pub fn reserved(&self) -> u32
        ensures value { result ≡ reserved self.now }
        ensures few { result < 2 ^ 31 }
    {
        self.held
    }

    // By how many containers the log grows in one step.
    fn growth_rate(&self) -> u32
        ensures value { result ≡ growth_rate self.now }
        ensures some { 1 ≤ result }
    {
        self.policies.growth.unwrap_or(1) as u32
    }

    // The most containers that the log may have.
    pub(crate) fn size_limit(&self) -> u32
        ensures value { result ≡ size_limit self.now }
        ensures few { result ≤ most_containers }
    {
        self.policies.maximum.unwrap_or(MOST_CONTAINERS) as u32
    }

    // The number of containers after growth for the wanted sectors; where no step of growth gives them it is that of now.
    fn grown_containers(&self, wanted: u32) -> u32
        ensures value { result ≡ grown_containers self.now wanted }
        ensures enough { active self.now ≤ result }
        ensures more { self.now.containers ≤ result }
        ensures limit { self.now.containers < result → result ≤ size_limit self.now }
        ensures few { result ≤ most_containers }
    {
        let have = self.containers();
        let rate = self.growth_rate();
        let limit = self.size_limit();
        growth(
            &self.shape,
            &self.place,
            self.needed,
            have,
            rate,
            limit,
            wanted,
        )
        .unwrap_or(have)
    }

    /// What the log has once it has grown for a call that needs so many sectors. It grows only where automatic growth is installed and the free
    /// sectors don't suffice.
    pub fn room_for(&self, need: u32) -> Room
        requires need { need < 2 ^ 31 }
        ensures containers { result.containers ≡ (grown self.now need).containers }
        ensures more { self.now.containers ≤ result.containers }
        ensures limit { self.now.containers < result.containers → result.containers ≤ size_limit self.now }
        ensures free { result.free ≡ free (grown self.now need) }
    {
        let have = self.containers();
        let free = self.free();
        let wanted = self.reserved() + need;
        if !self.policies.automatic || wanted <= free {
            return Room {
                containers: have,
                free,
            };
        }
        let containers = self.grown_containers(wanted);
        Room {
            containers,
            free: self.free_in(containers),
        }
    }

    // The fewest containers whose free sectors are at least the reserved ones.
    fn containers_for_reserved(&self) -> u32
        ensures { result ≡ containers_for_reserved self.now }
    {
        least_containers(
            &self.shape,
            &self.place,
            self.needed,
            self.containers,
            self.held,
        )
    }

    /// The fewest containers to which the log can shrink: those that a policy asks for, those in use, and those for what areas hold.
    pub fn needed_containers(&self) -> u32
        ensures { result ≡ needed_containers self.now }
    {
        let least = FEWEST_CONTAINERS.max(self.policies.minimum.unwrap_or(0)) as u32;
        least.max(self.active().max(self.containers_for_reserved()))
    }
}
