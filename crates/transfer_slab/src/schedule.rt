//! Which places of a slab are polled next.

ghost use Rattle.std.specs.Prelude.{◌≡◌, ℕ, ◌<◌, ◌≤◌, Some, None, IfSome, IfNone, IfOk, OnOk};
ghost use Rattle.std.specs.Prelude.{◌+◌, false};
ghost use Rattle.futures.specs.LinkedLists.{list_of, list_count, key_limit, IsEmpty, SameLists};
ghost use Rattle.futures.specs.LinkedLists.{Moves};
ghost use Rattle.transfer_slab.specs.Scheduling.{free_list, site_list_of, IsDueList, IsListFor};
ghost use Rattle.transfer_slab.specs.Scheduling.{Becomes, HasNoneDue, Wakes};
ghost use Rattle.std.specs.Bool.{OnFalse};

use exchange::{Place, Transfer, Wire};
use futures::util::linked_list::LinkedLists;
use std::alloc::{AllocError, Global};

/// The list of places where no transfer stands.
const FREE: usize = 0;

/// The list of places whose transfers wait for their dial or their wire.
const PARKED: usize = 1;

/// The lists of places that are due: one for rounds of even number, one for the others.
const DUE_EVEN: usize = 2;

const DUE_ODD: usize = 3;

/// The list of places that wait for a connection to the first site; the other sites' are behind it.
const FIRST_SITE: usize = 4;

/// The list of sites whose first waiter is not asked.
const QUIET: usize = 0;

/// The lists of sites whose first waiter is asked, by rounds as above.
const ASKED_EVEN: usize = 1;

const ASKED_ODD: usize = 2;

/// How many lists of sites there are.
const SITE_LISTS: usize = 3;

// The list of places that are due in rounds of that parity.
fn due_list(is_odd: bool) -> usize
    ensures due { IsDueList result }
    ensures in_range { result < 4 }
{
    if is_odd { DUE_ODD } else { DUE_EVEN }
}

// The list of sites that are asked in rounds of that parity.
fn asked_list(is_odd: bool) -> usize
    ensures { result < 3 }
{
    if is_odd { ASKED_ODD } else { ASKED_EVEN }
}

// So many lists without keys, with room for so many keys.
fn lists_of(alloc: Global, count: usize, room: usize) -> Result<LinkedLists, AllocError>
    ensures count { IfOk result (λ made. list_count made ≡ count) }
    ensures unlisted { IfOk result (λ made. (key : ℕ) → list_of made key ≡ None) }
    ensures reserved { IfOk result (λ made. room ≤ key_limit made) }
{
    let mut lists = LinkedLists::new(alloc, count)?;
    let Some(last) = room.checked_sub(1) else {
        return Ok(lists);
    };
    lists.reserve_key(last)?;
    Ok(lists)
}

// Takes a key out of its list, and puts it behind all others of that one.
fn move_to(lists: &mut LinkedLists, list: usize, key: usize)
    requires list_in { list < list_count lists.old }
    requires key_in { key < key_limit lists.old }
    ensures { Moves lists.old lists.new key (Some list) }
{
    lists.unlink(key);
    lists.push_back(list, key);
}

// What is known of a place beside its list.
#[derive(Clone, Copy, Debug, PartialEq, Eq, Drop)]
struct Seat {
    place: Place,
    // The dial has told of it since it became due.
    is_told: bool,
}

impl Seat {
    // The place of that index, where none has joined.
    fn at(place: usize) -> Result<Seat, AllocError> {
        let Ok(index) = u32::try_from(place) else {
            return Err(AllocError);
        };
        Ok(Seat {
            place: Place { index, joined: 0 },
            is_told: false,
        })
    }
}

// So many places, where none has joined.
fn seats_of(alloc: Global, room: usize) -> Result<Vec<Seat>, AllocError> {
    let mut seats = Vec::with_capacity(alloc, room)?;
    for place in 0..room {
        seats.push(Seat::at(place)?)?;
    }
    Ok(seats)
}

/// Places in lists: those where no transfer stands, those that are due, those that are parked until
/// the dial tells of them, and for each site those that wait for a connection, in the order of
/// their waits. Of those that wait only the first one of a site is polled, and only once a lease or
/// a ticket was spent or the one before it waits no more: it stays in its list meanwhile.
#[derive(Drop)]
pub(crate) struct Schedule {
    lists: LinkedLists,
    seats: Vec<Seat>,
    // The sites where places wait, in lists; a site where none waits any more may be left there.
    sites: LinkedLists,
    // The parity of this round, or of the next one between rounds.
    is_odd: bool,
    // A round has begun, and not ended.
    is_in_round: bool,
    // A waiter may have been granted a connection since the sites were asked.
    is_to_ask: bool,
    // One was since the slab's owner asked.
    has_spent: bool,
    // How many transfers had their connection after a wait since the slab's owner asked.
    granted: u64,
    // Number of sites that have a list of places.
    site_count: usize,
    ghost count: { list_count lists ≡ 4 + site_count },
    ghost sites_count: { list_count sites ≡ 3 },
    ghost sites_room: { site_count ≤ key_limit sites },
}

impl Schedule {
    /// Returns a schedule without transfers, with memory for `room` places, and for the waiters of
    /// `site_count` sites. A transfer that waits at another site is polled in each round.
    ///
    /// # Errors
    ///
    /// There is no memory for them.
    pub(crate) fn with_room(
        alloc: Global,
        room: usize,
        site_count: usize,
    ) -> Result<Schedule, AllocError>
        ensures unlisted { IfOk result (λ made. (place : ℕ) → list_of made.lists place ≡ None) }
        ensures reserved { IfOk result (λ made. room ≤ key_limit made.lists) }
    {
        let Some(all_lists) = site_count.checked_add(FIRST_SITE) else {
            return Err(AllocError);
        };
        Ok(Schedule {
            lists: lists_of(alloc, all_lists, room)?,
            seats: seats_of(alloc, room)?,
            sites: lists_of(alloc, SITE_LISTS, site_count)?,
            is_odd: false,
            is_in_round: false,
            is_to_ask: false,
            has_spent: false,
            granted: 0,
            site_count,
        })
    }

    /// Makes room for that place, if it is the one behind all others.
    pub(crate) fn add_place(&mut self, place: usize) -> Result<(), AllocError>
        ensures place_in { OnOk result (place < key_limit self.new.lists) }
        ensures grows { key_limit self.old.lists ≤ key_limit self.new.lists }
        ensures same_lists { SameLists self.old.lists self.new.lists }
    {
        let seat = Seat::at(place)?;
        if self.seats.len() <= place {
            self.seats.push(seat)?;
        }
        self.lists.reserve_key(place)
    }

    /// The first place where no transfer stands.
    pub(crate) fn first_free(&self) -> Option<usize>
        ensures free { IfSome result (λ place.
            list_of self.now.lists place ≡ Some free_list) }
        ensures none_free { IfNone result (IsEmpty self.now.lists free_list) }
    {
        self.lists.front(FREE)
    }

    /// Whether a place is due, or a site is asked or to be asked.
    pub(crate) fn has_due(&self) -> bool
        ensures { OnFalse result (HasNoneDue self.now.lists) }
    {
        self.has_due_places()
            || self.is_to_ask
            || self.sites.front(ASKED_EVEN).is_some()
            || self.sites.front(ASKED_ODD).is_some()
    }

    // Whether a place is due.
    fn has_due_places(&self) -> bool
        ensures { OnFalse result (HasNoneDue self.now.lists) }
    {
        self.lists.front(DUE_EVEN).is_some() || self.lists.front(DUE_ODD).is_some()
    }

    /// The place, as a dial is told of it.
    pub(crate) fn place(&self, place: usize) -> Option<Place> {
        Some(self.seats.get(place)?.place)
    }

    /// No round takes more polls.
    pub(crate) fn most_polls(&self) -> usize {
        self.seats.len().saturating_add(self.site_count)
    }

    /// Records that a new transfer joins at the place. It is polled in the next round to begin.
    pub(crate) fn joins(&mut self, place: usize)
        requires { place < key_limit self.old.lists }
        ensures { Becomes self.old.lists self.new.lists place IsDueList }
    {
        if let Some(seat) = self.seats.get_mut(place) {
            seat.place.joined = seat.place.joined.wrapping_add(1);
        }
        self.becomes_due(place);
    }

    // Puts the place into the list for the next round to begin.
    fn becomes_due(&mut self, place: usize)
        requires { place < key_limit self.old.lists }
        ensures { Becomes self.old.lists self.new.lists place IsDueList }
    {
        self.moves(place, due_list(self.is_odd != self.is_in_round));
    }

    /// The next place to be polled in this round, which begins with the first call.
    pub(crate) fn next_due(&mut self) -> Option<usize>
        ensures { self.new.lists ≡ self.old.lists }
    {
        self.is_in_round = true;
        match self.lists.front(due_list(self.is_odd)) {
            Some(place) => Some(place),
            None => self.next_asked(),
        }
    }

    // The first place that waits at the next site that is asked in this round.
    fn next_asked(&mut self) -> Option<usize>
        ensures { self.new.lists ≡ self.old.lists }
    {
        for _ in 0..self.site_count {
            let site = self.sites.front(asked_list(self.is_odd))?;
            if let Some(place) = self.first_at(site) {
                return Some(place);
            }
            self.sites.unlink(site);
        }
        None
    }

    // The first place that waits at the site.
    fn first_at(&self, site: usize) -> Option<usize> {
        self.lists.front(self.site_list(site)?)
    }

    // Returns the list of places that wait at a site, if the site has one.
    fn site_list(&self, site: usize) -> Option<usize>
        ensures list { IfSome result (λ list. list ≡ site_list_of site) }
        ensures in_range { IfSome result (λ list. list < list_count self.now.lists) }
    {
        if site < self.site_count {
            FIRST_SITE.checked_add(site)
        } else {
            None
        }
    }

    /// The transfer there was polled and goes on; it waited for a connection before, or not.
    pub(crate) fn note_poll<W: Wire>(&mut self, place: usize, waited: bool, transfer: &Transfer<W>)
        requires { place < key_limit self.old.lists }
        ensures { Becomes self.old.lists self.new.lists place (IsListFor transfer.now) }
    {
        let site = transfer.site() as usize;
        let list = self.list_for(place, transfer);
        self.note_spent(transfer.has_spent());
        if waited && !transfer.has_spent() && self.lists.list_of(place) == Some(list) {
            self.moves_site(site, QUIET);
            return;
        }
        self.moves(place, list);
        if waited {
            self.granted = self.granted.saturating_add(1);
            self.ask(site);
        } else if transfer.has_ticket() && self.sites.list_of(site).is_none() {
            self.moves_site(site, QUIET);
        }
    }

    /// The transfer there has ended. It had a ticket before, or not, and its last poll spent a
    /// lease, or not.
    pub(crate) fn note_end(&mut self, place: usize, site: u32, waited: bool, has_spent: bool)
        requires { place < key_limit self.old.lists }
        ensures { Moves self.old.lists self.new.lists place (Some free_list) }
    {
        self.note_spent(has_spent);
        self.moves(place, FREE);
        if waited {
            self.ask(site as usize);
        }
    }

    /// The place is there no more.
    pub(crate) fn note_gone(&mut self, place: usize)
        ensures { Moves self.old.lists self.new.lists place None }
    {
        self.lists.unlink(place);
    }

    /// Records whether a lease or a ticket was spent: then a waiter of any site may have been
    /// granted a connection.
    pub(crate) fn note_spent(&mut self, has_spent: bool)
        ensures { self.new.lists ≡ self.old.lists }
    {
        self.has_spent |= has_spent;
        self.is_to_ask |= has_spent && self.has_waiters();
    }

    /// True if a transfer waits for a connection at a site that has a list. It may stay true after
    /// the last wait, until the sites are asked.
    pub(crate) fn has_waiters(&self) -> bool {
        self.sites.front(QUIET).is_some()
            || self.sites.front(ASKED_EVEN).is_some()
            || self.sites.front(ASKED_ODD).is_some()
    }

    // Puts the place behind all others of that list.
    fn moves(&mut self, place: usize, list: usize)
        requires place_in { place < key_limit self.old.lists }
        requires list_in { list < list_count self.old.lists }
        ensures { Moves self.old.lists self.new.lists place (Some list) }
    {
        if let Some(seat) = self.seats.get_mut(place) {
            seat.is_told = false;
        }
        move_to(&mut self.lists, list, place);
    }

    // The list of a transfer that goes on. If the dial told of it while it was due, it is polled
    // once more: the first read after a write asks nobody.
    fn list_for<W: Wire>(&self, place: usize, transfer: &Transfer<W>) -> usize
        ensures list { IsListFor transfer.now result }
        ensures in_range { result < list_count self.now.lists }
    {
        if transfer.has_ticket() {
            if let Some(list) = self.site_list(transfer.site() as usize) {
                return list;
            }
        }
        if transfer.is_at_wire() && !self.is_told(place) {
            return PARKED;
        }
        due_list(!self.is_odd)
    }

    // Whether the dial has told of the place since it became due.
    fn is_told(&self, place: usize) -> bool {
        match self.seats.get(place) {
            Some(seat) => seat.is_told,
            None => false,
        }
    }

    // The site is asked in the next round, if a place waits there.
    fn ask(&mut self, site: usize)
        ensures { self.new.lists ≡ self.old.lists }
    {
        if self.first_at(site).is_some() {
            self.moves_site(site, asked_list(!self.is_odd));
        } else {
            self.sites.unlink(site);
        }
    }

    // Puts the site behind all others of that list.
    fn moves_site(&mut self, site: usize, list: usize)
        requires { list < 3 }
        ensures { self.new.lists ≡ self.old.lists }
    {
        if site < self.site_count {
            move_to(&mut self.sites, list, site);
        }
    }

    /// Records that the dial reports the transfer at that place as ready. A parked transfer is
    /// polled in the next round to begin. A report of an earlier transfer there, or of a transfer
    /// that waits for a connection, has no effect.
    pub(crate) fn note_ready(&mut self, told: Place)
        ensures wakes { Wakes self.old.lists self.new.lists }
        ensures limit { key_limit self.new.lists ≡ key_limit self.old.lists }
    {
        let place = told.index as usize;
        match self.seats.get_mut(place) {
            Some(seat) if seat.place == told => seat.is_told = true,
            _ => return,
        }
        if self.lists.list_of(place) == Some(PARKED) {
            self.becomes_due(place);
        }
    }

    /// Records that any transfer may be ready: each parked transfer is polled in the next round to
    /// begin.
    pub(crate) fn note_all_ready(&mut self)
        ensures wakes { Wakes self.old.lists self.new.lists }
        ensures limit { key_limit self.new.lists ≡ key_limit self.old.lists }
    {
        for _ in 0..self.seats.len() {
            let Some(place) = self.lists.front(PARKED) else {
                return;
            };
            self.becomes_due(place);
        }
    }

    /// A waiter of any site may have been granted a connection.
    pub(crate) fn ask_sites(&mut self)
        ensures { self.new.lists ≡ self.old.lists }
    {
        self.is_to_ask |= self.has_waiters();
    }

    /// Whether a lease or a ticket was spent since the last call.
    pub(crate) fn take_spent(&mut self) -> bool
        ensures spent { result ≡ self.old.has_spent }
        ensures taken { self.new.has_spent ≡ false }
        ensures lists { self.new.lists ≡ self.old.lists }
    {
        let has_spent = self.has_spent;
        self.has_spent = false;
        has_spent
    }

    /// How many transfers had their connection after a wait since the last call.
    pub(crate) fn take_granted(&mut self) -> u64
        ensures { self.new.lists ≡ self.old.lists }
    {
        let granted = self.granted;
        self.granted = 0;
        granted
    }

    /// Ends the round: the next one polls those that are due by then, and behind them, if a lease
    /// or a ticket was spent, the first one that waits at each site.
    pub(crate) fn end_round(&mut self)
        ensures { self.new.lists ≡ self.old.lists }
    {
        if self.is_to_ask {
            self.is_to_ask = false;
            self.ask_all();
        }
        self.is_odd = !self.is_odd;
        self.is_in_round = false;
    }

    // Each site where a place waits is asked in the next round.
    fn ask_all(&mut self)
        ensures { self.new.lists ≡ self.old.lists }
    {
        for _ in 0..self.site_count {
            let Some(site) = self.sites.front(QUIET) else {
                return;
            };
            self.ask(site);
        }
    }
}
