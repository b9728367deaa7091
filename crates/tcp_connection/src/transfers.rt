//! The R2Ts that are under way, and their data.

ghost use Rattle.std.specs.Prelude.{◌≡◌, ◌<◌, ◌≤◌, ◌+◌, ◌++◌, [], IfOk, IfSome, None, Some, is_none, is_some, length, replicate, unwrap_or, vec_capacity, vec_len};
ghost use Rattle.tcp_connection.specs.Reading.{data_error, error_of};
ghost use Rattle.tcp_connection.specs.Transfers.{begun, data_of_command, free_tag, has_transfer, is_for, joined_in, outstanding, outstanding_in, place_of, transfer_at, whole_in, with_data, with_wanted, without_command};

use std::alloc::{AllocError, Global};
use std::marker::Model;
use std::mem::swap;
use tcp_pdus::{CommonHeader, DataHeader, FatalError, MAX_H2C_DATA, ReadyToTransfer};

/// The most R2Ts that are under way at a time.
const MOST_TRANSFERS: usize = 4;

/// A place for an R2T, with room for all of its data.
#[derive(Drop)]
pub(crate) struct Place {
    /// The R2T that is under way.
    wanted: Option<ReadyToTransfer>,
    /// The data that came for it in whole PDUs.
    came: Vec<u8>,
}

impl Model for Place {
    ghost use Rattle.std.specs.Prelude.{Option};
    ghost use Rattle.tcp_connection.specs.Transfers.{Transfer};
    ghost use Rattle.tcp_connection.specs.steps.Transfers.{IsPlace, transfer_in};

    ghost Value = { Option Transfer };

    ghost view = { λ p. transfer_in p.came.items p.wanted };

    ghost invariant = { λ p. IsPlace p.wanted p.came };
}

/// Adds bytes, for which there is room.
fn append(bytes: &mut Vec<u8>, more: &[u8])
    requires { vec_len bytes.old + length more.now ≤ vec_capacity bytes.old }
    ensures added { bytes.new.items ≡ bytes.old.items ++ more.now }
    ensures room { vec_capacity bytes.old ≤ vec_capacity bytes.new }
{
    match bytes.extend_from_slice(more) {
        Ok(()) => {}
        Err(_) => unreachable!(),
    }
}

/// Adds data to what came before, in the room of one or the other, and leaves the other empty.
fn join(came: &mut Vec<u8>, sent: &mut Vec<u8>)
    requires fits { vec_len came.old + vec_len sent.old ≤ MAX_H2C_DATA }
    requires came { MAX_H2C_DATA ≤ vec_capacity came.old }
    requires sent { MAX_H2C_DATA ≤ vec_capacity sent.old }
    ensures added { came.new.items ≡ came.old.items ++ sent.old.items }
    ensures taken { sent.new.items ≡ [] }
    ensures came { MAX_H2C_DATA ≤ vec_capacity came.new }
    ensures sent { MAX_H2C_DATA ≤ vec_capacity sent.new }
{
    if came.is_empty() {
        swap(came, sent);
    } else {
        append(came, sent.as_slice());
        sent.clear();
    }
}

impl Place {
    /// A place without an R2T.
    fn new(alloc: Global) -> Result<Place, AllocError>
        ensures { IfOk result (λ place. place ≡ None) }
    {
        Ok(Place {
            wanted: None,
            came: Vec::with_capacity(alloc, MAX_H2C_DATA as usize)?,
        })
    }

    /// Is it without an R2T?
    fn is_free(&self) -> bool
        ensures { result ≡ is_none self.now }
    {
        self.wanted.is_none()
    }

    /// Is its R2T for this command?
    fn is_for(&self, command: u16) -> bool
        ensures { result ≡ is_for command self.now }
    {
        match self.wanted {
            Some(wanted) => wanted.command == command,
            None => false,
        }
    }

    /// Checks that data may come for its R2T.
    fn check(&self, common: CommonHeader, sent: DataHeader) -> Result<(), FatalError>
        ensures { error_of result ≡ data_error common sent (outstanding_in self.now) }
    {
        match self.wanted {
            Some(wanted) if self.came.len() < wanted.length as usize => {
                sent.check(common, Some(wanted), self.came.len() as u32)
            }
            Some(_) | None => Err(FatalError::InvalidHeaderField { offset: 10 }),
        }
    }

    /// Has all of its data come?
    fn is_whole(&self) -> bool
        ensures { result ≡ is_some (whole_in self.now) }
    {
        match self.wanted {
            Some(wanted) => self.came.len() >= wanted.length as usize,
            None => false,
        }
    }

    /// All of its data, once that has come.
    fn data(&self) -> &[u8]
        ensures { result.now ≡ unwrap_or (whole_in self.now) [] }
    {
        if self.is_whole() {
            self.came.as_slice()
        } else {
            &[]
        }
    }

    /// Has an R2T, of which nothing has come.
    fn begin(&mut self, wanted: ReadyToTransfer)
        requires { wanted.length ≤ MAX_H2C_DATA }
        ensures { self.new ≡ Some (begun wanted) }
    {
        self.wanted = Some(wanted);
        self.came.clear();
    }

    /// Adds data to what came for its R2T, and leaves as much room without data.
    fn join(&mut self, sent: &mut Vec<u8>)
        requires fits { IfSome self.old (λ t. length t.came + length sent.old.items ≤ t.wanted.length) }
        requires room { MAX_H2C_DATA ≤ vec_capacity sent.old }
        ensures added { self.new ≡ joined_in sent.old.items self.old }
        ensures taken { sent.new.items ≡ [] }
        ensures room { MAX_H2C_DATA ≤ vec_capacity sent.new }
    {
        if self.wanted.is_some() {
            join(&mut self.came, sent);
        } else {
            sent.clear();
        }
    }

    /// Lets its R2T go, with the data.
    fn clear(&mut self)
        ensures { self.new ≡ None }
    {
        self.wanted = None;
        self.came.clear();
    }
}

/// As many places as R2Ts may be under way, all free.
fn free_places(alloc: Global) -> Result<Vec<Place>, AllocError>
    ensures { IfOk result (λ places. places.items ≡ replicate 4 None) }
{
    let mut places = Vec::with_capacity(alloc, MOST_TRANSFERS)?;
    for _ in 0..MOST_TRANSFERS {
        places.push(Place::new(alloc)?)?;
    }
    Ok(places)
}

/// Checks that data may come for the R2T with its tag.
fn check(places: &[Place], common: CommonHeader, sent: DataHeader) -> Result<(), FatalError>
    ensures { error_of result ≡ data_error common sent (outstanding sent.tag places.now) }
{
    let tag = usize::from(sent.tag);
    if tag < places.len() {
        places[tag].check(common, sent)
    } else {
        Err(FatalError::InvalidHeaderField { offset: 10 })
    }
}

/// Has the R2T with this tag, of which nothing has come.
#[tactic(auto, using(std::proofs::lemmas::List::set_past))]
fn begin(places: &mut [Place], wanted: ReadyToTransfer)
    requires { wanted.length ≤ MAX_H2C_DATA }
    ensures { places.new ≡ with_wanted wanted places.old }
{
    let tag = usize::from(wanted.tag);
    if tag < places.len() {
        places[tag].begin(wanted);
    }
}

/// Adds data to what came for the R2T with this tag, and leaves as much room without data.
#[tactic(auto, using(std::proofs::lemmas::List::set_past))]
fn join_at(places: &mut [Place], tag: u16, sent: &mut Vec<u8>)
    requires fits { IfSome (transfer_at tag places.old) (λ t. length t.came + length sent.old.items ≤ t.wanted.length) }
    requires room { MAX_H2C_DATA ≤ vec_capacity sent.old }
    ensures added { places.new ≡ with_data tag sent.old.items places.old }
    ensures taken { sent.new.items ≡ [] }
    ensures room { MAX_H2C_DATA ≤ vec_capacity sent.new }
{
    let place = usize::from(tag);
    if place < places.len() {
        places[place].join(sent);
    } else {
        sent.clear();
    }
}

/// Where the R2T of a command stands.
fn place_of(places: &[Place], command: u16) -> Option<usize>
    ensures place { result ≡ place_of command places.now }
    ensures within { IfSome result (λ place. place < length places.now) }
{
    places.iter().position(|place| place.is_for(command))
}

/// Has all data of a command's R2T come?
fn is_whole(places: &[Place], command: u16) -> bool
    ensures { result ≡ is_some (data_of_command command places.now) }
{
    match place_of(places, command) {
        Some(place) => places[place].is_whole(),
        None => false,
    }
}

/// All data of a command's R2T, once that has come.
fn data_of(places: &[Place], command: u16) -> &[u8]
    ensures { result.now ≡ unwrap_or (data_of_command command places.now) [] }
{
    match place_of(places, command) {
        Some(place) => places[place].data(),
        None => &[],
    }
}

/// The lowest place that is free.
fn free_place(places: &[Place]) -> Option<usize>
    ensures place { result ≡ free_tag places.now }
    ensures within { IfSome result (λ place. place < length places.now) }
{
    places.iter().position(|place| place.is_free())
}

/// Lets all go.
fn clear(places: &mut [Place])
    requires { length places.old ≡ 4 }
    ensures { places.new ≡ replicate 4 None }
{
    for tag in 0..MOST_TRANSFERS {
        places[tag].clear();
    }
}

/// The R2Ts that are under way, by their tags.
#[derive(Drop)]
pub(crate) struct Transfers {
    places: Vec<Place>,
}

impl Model for Transfers {
    ghost use Rattle.std.specs.Prelude.{◌≡◌, List, Option, length};
    ghost use Rattle.tcp_connection.specs.Transfers.{Transfer};

    ghost Value = { List (Option Transfer) };

    ghost view = { λ t. t.places.items };

    ghost invariant = { λ t. length t.places.items ≡ 4 };
}

impl Transfers {
    /// None, with room for the data of as many as there may be.
    pub(crate) fn new(alloc: Global) -> Result<Transfers, AllocError>
        ensures { IfOk result (λ transfers. transfers ≡ replicate 4 None) }
    {
        Ok(Transfers {
            places: free_places(alloc)?,
        })
    }

    /// Checks that data may come for the R2T with its tag.
    pub(crate) fn check(&self, common: CommonHeader, sent: DataHeader) -> Result<(), FatalError>
        ensures { error_of result ≡ data_error common sent (outstanding sent.tag self.now) }
    {
        check(self.places.as_slice(), common, sent)
    }

    /// The lowest tag that none has.
    pub(crate) fn free_tag(&self) -> Option<u16>
        ensures { result ≡ free_tag self.now }
    {
        match free_place(self.places.as_slice()) {
            Some(tag) => Some(tag as u16),
            None => None,
        }
    }

    /// Has a command one?
    pub(crate) fn has(&self, command: u16) -> bool
        ensures { result ≡ has_transfer command self.now }
    {
        self.places.iter().any(|place| place.is_for(command))
    }

    /// Has all data of a command's R2T come?
    pub(crate) fn is_whole(&self, command: u16) -> bool
        ensures { result ≡ is_some (data_of_command command self.now) }
    {
        is_whole(self.places.as_slice(), command)
    }

    /// All data of a command's R2T, once that has come.
    pub(crate) fn data(&self, command: u16) -> &[u8]
        ensures { result.now ≡ unwrap_or (data_of_command command self.now) [] }
    {
        data_of(self.places.as_slice(), command)
    }

    /// One more is under way.
    pub(crate) fn begin(&mut self, wanted: ReadyToTransfer)
        requires { wanted.length ≤ MAX_H2C_DATA }
        ensures { self.new ≡ with_wanted wanted self.old }
    {
        begin(self.places.as_mut_slice(), wanted);
    }

    /// Adds data to what came for the R2T with this tag, and leaves as much room without data.
    pub(crate) fn join(&mut self, tag: u16, sent: &mut Vec<u8>)
        requires fits { IfSome (transfer_at tag self.old) (λ t. length t.came + length sent.old.items ≤ t.wanted.length) }
        requires room { MAX_H2C_DATA ≤ vec_capacity sent.old }
        ensures added { self.new ≡ with_data tag sent.old.items self.old }
        ensures taken { sent.new.items ≡ [] }
        ensures room { MAX_H2C_DATA ≤ vec_capacity sent.new }
    {
        join_at(self.places.as_mut_slice(), tag, sent);
    }

    /// Lets a command's R2T go, where it has one, with its data.
    pub(crate) fn forget(&mut self, command: u16)
        ensures { self.new ≡ without_command command self.old }
    {
        if let Some(place) = place_of(self.places.as_slice(), command) {
            self.places[place].clear();
        }
    }

    /// Lets all go.
    pub(crate) fn clear(&mut self)
        ensures { self.new ≡ replicate 4 None }
    {
        clear(self.places.as_mut_slice());
    }
}
