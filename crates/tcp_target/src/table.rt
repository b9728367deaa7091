//! The controllers that there are, by their identifiers.

ghost use Rattle.std.specs.Prelude.{◌≡◌, slice_set};
ghost use Rattle.tcp_target.specs.Table.{free_id, has_connection, is_free, is_ready, named, with_id};

use crate::connect_data::Host;
use crate::connected::NamedController;
use crate::role::Role;

/// The most controllers at a time (profile); their identifiers are 1 to 4.
pub const MOST_CONTROLLERS: usize = 4;

/// The places of the table: one of each identifier, and of 0, which no controller has.
pub(crate) const PLACES: usize = 5;

/// The association of a host with a controller.
#[derive(Clone, Copy)]
pub struct Association {
    /// Who made the controller.
    pub host: Host,
    /// Is the controller ready for I/O?
    pub is_ready: bool,
}

/// The controllers that there are, by their identifiers.
pub(crate) type Table = [Option<Association>; PLACES];

/// The association of the controller that has this identifier, if there is one.
pub(crate) fn with_id(table: &[Option<Association>], id: u16) -> Option<Association>
    ensures { result ≡ with_id id table.now }
{
    match table.get(usize::from(id)) {
        Some(association) => *association,
        None => None,
    }
}

/// Is there no controller with this identifier?
fn is_free(table: &[Option<Association>], id: u16) -> bool
    ensures { result ≡ is_free table.now id }
{
    with_id(table, id).is_none()
}

/// The lowest identifier that no controller has.
pub(crate) fn free_id(table: &[Option<Association>]) -> Option<u16>
    ensures { result ≡ free_id table.now }
{
    [1, 2, 3, 4].iter().copied().find(|id| is_free(table, *id))
}

/// Is there a controller with this identifier, and is it ready?
pub(crate) fn is_ready(table: &[Option<Association>], id: u16) -> bool
    ensures { result ≡ is_ready id table.now }
{
    match with_id(table, id) {
        Some(association) => association.is_ready,
        None => false,
    }
}

/// Has an I/O queue of a controller a connection?
fn has_connection(roles: &[Role], id: u16, queue: u16) -> bool
    ensures { result ≡ has_connection id queue roles.now }
{
    roles.iter().any(|role| role.is_queue_of(id, queue))
}

/// The controller that a Connect to one of its queues names, if there is one.
pub(crate) fn named(
    table: &[Option<Association>],
    roles: &[Role],
    id: u16,
    queue: u16,
) -> Option<NamedController>
    ensures { result ≡ named id queue table.now roles.now }
{
    match with_id(table, id) {
        Some(association) => Some(NamedController {
            host: association.host,
            is_ready: association.is_ready,
            has_connection: has_connection(roles, id, queue),
        }),
        None => None,
    }
}

/// The table with this in the place of an identifier.
#[tactic(auto, using(std::proofs::lemmas::List::set_past))]
pub(crate) fn put(table: &mut [Option<Association>], id: u16, association: Option<Association>)
    ensures { table.new ≡ slice_set table.old id association }
{
    let place = usize::from(id);
    if place < table.len() {
        table[place] = association;
    }
}
