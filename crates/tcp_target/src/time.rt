//! How long a target waits for its hosts.

ghost use Rattle.std.specs.Prelude.{◌≡◌, ◌<◌, map, slice_set};
ghost use Rattle.tcp_target.specs.Clocks.{later_controller};
ghost use Rattle.tcp_target.specs.Target.{connection_clock_at, controller_at, controller_clock_at, heard, heard_on_io, with_connection_clock, with_controller, with_controller_clock};
ghost use Rattle.tcp_target.specs.Time.{counted_at, counted_below, is_given_up, is_late, is_late_as, is_lost, patience_of, ticked, waits};

use crate::clocks::{ConnectionClock, ControllerClock, is_past};
use crate::role::{MOST_CONNECTIONS, Role};
use crate::target::{PLACES, Target};
use tcp_admin::Controller;

/// The milliseconds that a host has for a Connect that succeeds (profile).
const TO_CONNECT: u64 = 30_000;

/// The milliseconds that a host has for the next bytes of what is to be sent to it (profile).
const TO_TAKE: u64 = 60_000;

/// The milliseconds for which the queues of a controller without a Keep Alive Timeout may be silent (profile).
const TO_SPEAK: u64 = 600_000;

/// For how many milliseconds a controller waits to hear of its host: one and a half times KATO.
fn patience_of(controller: Controller) -> u64
    ensures { result ≡ patience_of controller }
{
    u64::from(controller.keep_alive()) * 3 / 2
}

/// The controllers with another in the place of an identifier.
#[tactic(auto, using(std::proofs::lemmas::List::set_past))]
fn put_controller(controllers: &mut [Controller], id: u16, controller: Controller)
    ensures { controllers.new ≡ slice_set controllers.old id controller }
{
    let place = usize::from(id);
    if place < controllers.len() {
        controllers[place] = controller;
    }
}

/// The clocks of controllers with others in the place of an identifier.
#[tactic(auto, using(std::proofs::lemmas::List::set_past))]
fn put_clock(clocks: &mut [ControllerClock], id: u16, clock: ControllerClock)
    ensures { clocks.new ≡ slice_set clocks.old id clock }
{
    let place = usize::from(id);
    if place < clocks.len() {
        clocks[place] = clock;
    }
}

/// What a tick makes of the clocks of controllers.
fn later_clocks(clocks: &[ControllerClock; PLACES], milliseconds: u32) -> [ControllerClock; PLACES]
    ensures { result ≡ map (λ clock. later_controller milliseconds clock) clocks.now }
{
    let mut later = [ControllerClock::new(); PLACES];
    for (id, clock) in clocks.iter().enumerate() {
        later[id] = clock.later(milliseconds);
    }
    later
}

impl Target {
    /// The controller with an identifier.
    pub(crate) fn controller(&self, id: u16) -> Controller
        ensures { result ≡ controller_at id self.now }
    {
        match self.controllers.get(usize::from(id)) {
            Some(controller) => *controller,
            None => Controller::new(0, 0),
        }
    }

    /// Changes the controller with an identifier.
    pub(crate) fn set_controller(&mut self, id: u16, controller: Controller)
        ensures { self.new ≡ with_controller id controller self.old }
    {
        put_controller(&mut self.controllers, id, controller);
    }

    /// The clocks of the controller with an identifier.
    fn controller_clock(&self, id: u16) -> ControllerClock
        ensures { result ≡ controller_clock_at id self.now }
    {
        match self.controller_clocks.get(usize::from(id)) {
            Some(clock) => *clock,
            None => ControllerClock::new(),
        }
    }

    /// Something has come of a controller's host on its admin queue: it is waited for anew.
    pub(crate) fn hear(&mut self, id: u16)
        ensures { self.new ≡ heard id self.old }
    {
        put_clock(&mut self.controller_clocks, id, ControllerClock::new());
    }

    /// Something has come of it on one of its I/O queues.
    pub(crate) fn hear_on_io(&mut self, id: u16)
        ensures { self.new ≡ heard_on_io id self.old }
    {
        let clock = ControllerClock {
            queues: None,
            ..self.controller_clock(id)
        };
        put_clock(&mut self.controller_clocks, id, clock);
    }

    /// Changes the clocks of a connection.
    pub(crate) fn set_connection_clock(&mut self, number: usize, clock: ConnectionClock)
        requires { number < MOST_CONNECTIONS }
        ensures { self.new ≡ with_connection_clock number clock self.old }
    {
        self.connection_clocks[number] = clock;
    }

    /// The clocks of a connection.
    pub(crate) fn connection_clock(&self, number: usize) -> ConnectionClock
        requires { number < MOST_CONNECTIONS }
        ensures { result ≡ connection_clock_at number self.now }
    {
        self.connection_clocks[number]
    }

    /// Says that so many milliseconds went by, the last of which end now. What came and what was taken until then is to be said before.
    pub fn tick(&mut self, milliseconds: u32)
        ensures { self.new ≡ ticked milliseconds self.old }
    {
        self.controller_clocks = later_clocks(&self.controller_clocks, milliseconds);
        self.count(milliseconds);
    }

    /// Lets the clocks of all connections go on.
    fn count(&mut self, milliseconds: u32)
        ensures { self.new ≡ counted_below milliseconds 40 self.old }
    {
        for number in 0..MOST_CONNECTIONS {
            self.count_at(milliseconds, number);
        }
    }

    /// Lets the clocks of a connection go on.
    fn count_at(&mut self, milliseconds: u32, number: usize)
        requires { number < MOST_CONNECTIONS }
        ensures { self.new ≡ counted_at milliseconds number self.old }
    {
        let waits = self.waits(number);
        let clock = self.connection_clock(number).later(milliseconds, waits);
        self.set_connection_clock(number, clock);
    }

    /// Is something to be sent on a connection?
    fn waits(&self, number: usize) -> bool
        requires { number < MOST_CONNECTIONS }
        ensures { result ≡ waits number self.now }
    {
        !self.connection(number).unsent().is_empty()
    }

    /// Is a connection to be closed at once? So it is since its controller has ended or was stopped; since no Connect has succeeded on it
    /// for 30 seconds; since nothing was taken for 60 seconds of what is to be sent on it; or, with the admin queue of a controller, since
    /// the host is lost: nothing has come on that queue for one and a half times its Keep Alive Timeout (NVMe Base 2.0, 3.9), or, without
    /// one, on none of the controller's queues for 10 minutes.
    pub fn is_given_up(&self, number: usize) -> bool
        requires { number < MOST_CONNECTIONS }
        ensures { result ≡ is_given_up number self.now }
    {
        self.queues.is_cut_off(number) || self.is_late(number)
    }

    /// Has its host had more time than it may take?
    fn is_late(&self, number: usize) -> bool
        requires { number < MOST_CONNECTIONS }
        ensures { result ≡ is_late number self.now }
    {
        let role = self.queues.role(number);
        self.connection(number).is_open()
            && (is_past(self.connection_clock(number).taken, TO_TAKE)
                || self.is_late_as(role, number))
    }

    /// The same, by what the connection is for.
    fn is_late_as(&self, role: Role, number: usize) -> bool
        requires { number < MOST_CONNECTIONS }
        ensures { result ≡ is_late_as role number self.now }
    {
        match role {
            Role::Unconnected => is_past(self.connection_clock(number).begun, TO_CONNECT),
            Role::Admin { controller } => self.is_lost(controller),
            Role::Io { .. } | Role::Ended => false,
        }
    }

    /// Is a controller's host taken for lost?
    fn is_lost(&self, id: u16) -> bool
        ensures { result ≡ is_lost id self.now }
    {
        let controller = self.controller(id);
        let clock = self.controller_clock(id);
        if controller.keep_alive() == 0 {
            is_past(clock.queues, TO_SPEAK)
        } else {
            is_past(clock.admin, patience_of(controller))
        }
    }
}
