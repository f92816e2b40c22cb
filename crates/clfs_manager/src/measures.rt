// What the log is like, as numbers: what it still needs, how much of it is on the disk, and what it has of space, of which `clfs_room` computes. Each is
// what the machine's definition says of the state, and each comes from the tables in memory; no call is made on the disk, and nothing is kept.
ghost use Rattle.std.specs.Prelude.{◌≡◌, ◌≤◌};
ghost use Rattle.clfs_manager.specs.Machine.{container_of, flushed, hold, IsShape, IsSmall, most_containers};
ghost use Rattle.clfs_manager.specs.Memory.{IsSound};

use crate::log::Log;
use clfs_lsn::{Lsn, Place, Shape};
use clfs_model::records_are_as_their_heads;
use clfs_room::Space;

impl Log {
    // How large blocks and containers are.
    pub(crate) fn shape(&self) -> Shape
        requires sound { IsSound self.now }
        ensures value { result ≡ self.now.state.value.shape }
        ensures shape { IsShape result }
    {
        self.queue.shape()
    }

    // Where the next record goes.
    pub(crate) fn place(&self) -> Place
        requires sound { IsSound self.now }
        ensures value { result ≡ self.now.state.value.place }
        ensures small { IsSmall result }
    {
        self.queue.place()
    }

    // The LSN below which all records are on the disk.
    pub(crate) fn flushed(&self) -> Lsn
        requires sound { IsSound self.now }
        ensures { result ≡ flushed self.now.state.value }
    {
        self.queue.flushed()
    }

    // The least LSN that the log still needs.
    pub(crate) fn hold(&self) -> Lsn
        requires sound { IsSound self.now }
        ensures value { result ≡ hold self.now.state.value }
        ensures container { container_of result ≤ self.now.state.value.place.container }
    {
        records_are_as_their_heads();
        let place = self.place();
        self.tables.hold(self.archive.tail(), &place)
    }

    // How many containers the log has.
    pub(crate) fn containers(&self) -> u32
        requires sound { IsSound self.now }
        ensures value { result ≡ self.now.state.value.containers }
        ensures few { result ≤ most_containers }
    {
        let image = self.physical.image();
        image.containers as u32
    }

    // What the log has of space.
    pub(crate) fn space(&self) -> Space
        requires sound { IsSound self.now }
        ensures { result ≡ self.now.state.value }
    {
        Space::new(
            self.shape(),
            self.place(),
            self.hold(),
            self.containers(),
            self.areas.total(),
            self.policies,
            &self.state,
        )
    }
}
