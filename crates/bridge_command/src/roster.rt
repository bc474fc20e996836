//! The edition, the bridge's own address, the declared ports, and the place that a scenario has reached.
ghost use Rattle.std.specs.Prelude.{◌≡◌, ◌≢◌, ◌≤◌, ◌==◌, length, OnOk, OnErr, IfOk, IfSome, slice_get, nat_le, true, false, not, ◌&&◌, if◌then◌else◌, None, Some, Ok};
ghost use Rattle.std.specs.List.{list_any};
ghost use Rattle.std.specs.Option.{option_map, is_some};
ghost use Rattle.br_model.specs.declared.scenario.LineWhy.TheVariants.{Port as PortWhy, Number as NumberWhy};
ghost use Rattle.br_model.specs.declared.scenario.Said.TheVariants.{Opens, Bridge, Declares};
ghost use Rattle.br_model.specs.Data.Digits.{is_decimal as is_a_decimal};
ghost use Rattle.br_model.specs.Table.Domains.{first_chip_domain, host, last_chip, last_port};
ghost use Rattle.br_model.specs.Text.CommandForms.{step};
ghost use Rattle.br_model.specs.Text.Operands.{number as number_of, chip_domain, port_name, device as device_of, new_port as new_port_of, new_name as new_name_of, port_number as port_number_of};
ghost use Rattle.br_model.specs.Text.Roster.{first_roster, domains_of, is_chip, has_number, port_named, is_name as is_a_name};
ghost use Rattle.br_model.specs.Text.Scenario.{declared};
ghost use Rattle.br_model.specs.Text.Spelling.{name_of};
ghost use Rattle.br_model.specs.Text.Declarations.{fits_beside, are_declared};
ghost use Rattle.bridge_command.specs.Seen.{in_place, stands_at, is_port_at, is_domain_at, OrNoMemory};

use crate::operands::{is_decimal, is_name, number, number_up_to};
use br_model::NoMemory;
use br_model::domains::{Domains, Edition};
use br_model::name::Name;
use br_model::numbers::{Dom, Mac, Port};
use br_model::scenario::{LineWhy, Place};
use indexmap::IndexMap;
use std::alloc::Global;
use std::marker::Model;

/// The place that a scenario has reached, whether its command is `check`, the bridge's own address, and the declared ports, seen
/// as their list in the order of their lines. Each has a number from 1 to `Port::LAST` and a name of its own.
#[derive(Drop)]
pub struct Roster {
    place: Place,
    check: bool,
    own: Mac,
    ports: IndexMap<String, (Port, Dom)>,
    /// The domains of the same ports, and the edition.
    domains: Domains,
}

impl Model for Roster {
    ghost use Rattle.std.specs.Prelude.{◌≡◌, true, map};
    ghost use Rattle.br_model.specs.Text.Roster.{Roster as Ports, domains_of};
    ghost use Rattle.br_model.specs.Text.Declarations.{are_declared};
    ghost use Rattle.bridge_command.specs.Seen.{entry};

    ghost Value = { Ports };

    ghost view = { λ r. record { place = r.place; check = r.check; edition = r.domains.edition; own = r.own; ports = map entry r.ports.entries } };

    ghost invariant = { λ r. (are_declared (map entry r.ports.entries) ≡ true) × (r.domains ≡ domains_of r.domains.edition (map entry r.ports.entries)) };
}

/// Why a word that spells no number up to the last port's names no port.
fn not_numbered(word: &str) -> LineWhy
    ensures { result ≡ (if is_a_decimal word.now then PortWhy else NumberWhy) }
{
    if is_decimal(word) {
        LineWhy::Port
    } else {
        LineWhy::Number
    }
}

impl Roster {
    /// Before the first line.
    pub fn make(alloc: Global, check: bool) -> Result<Roster, NoMemory>
        ensures { result ≡ Ok (first_roster check) }
    {
        Ok(Roster {
            place: Place::Opening,
            check,
            own: Mac::FIRST_OWN,
            ports: IndexMap::new(alloc),
            domains: Domains::make(),
        })
    }

    /// The place that the lines so far have reached.
    pub fn place(&self) -> Place
        ensures { result ≡ self.now.place }
    {
        self.place
    }

    /// Whether the command is `check`.
    pub fn is_check(&self) -> bool
        ensures { result ≡ self.now.check }
    {
        self.check
    }

    /// The edition of the scenario.
    pub fn edition(&self) -> Edition
        ensures { result ≡ self.now.edition }
    {
        self.domains.edition()
    }

    /// The bridge's own address.
    pub fn own(&self) -> Mac
        ensures { result ≡ self.now.own }
    {
        self.own
    }

    /// How many ports are declared: at most as many as `Port::LAST`.
    pub fn len(&self) -> usize
        ensures value { result ≡ length self.now.ports }
        ensures most { result ≤ last_port }
        ensures declared { are_declared self.now.ports ≡ true }
    {
        self.ports.len()
    }

    pub fn is_empty(&self) -> bool
        ensures { result ≡ (length self.now.ports == 0) }
    {
        self.ports.is_empty()
    }

    /// The port that was declared in that place, counting from 0.
    pub fn port(&self, i: usize) -> Option<Port>
        ensures value { result ≡ option_map (λ e. e.port) (slice_get self.now.ports i) }
        ensures declared { are_declared self.now.ports ≡ true }
    {
        match self.ports.get_index(i) {
            Some((_, (port, _))) => Some(*port),
            None => None,
        }
    }

    /// The domain of each declared port, and of the host, in the edition.
    pub fn domains(&self) -> Domains
        ensures value { result ≡ domains_of self.now.edition self.now.ports }
        ensures declared { are_declared self.now.ports ≡ true }
    {
        let mut domains = Domains::make().with_edition(self.edition());
        for i in 0..self.len() {
            let Some((port, dom)) = self.entry(i) else {
                continue;
            };
            domains.set(port, dom);
        }
        domains
    }

    /// The port that was declared in that place, and its domain.
    fn entry(&self, i: usize) -> Option<(Port, Dom)>
        ensures { result ≡ option_map (λ e. (e.port, e.dom)) (slice_get self.now.ports i) }
    {
        match self.ports.get_index(i) {
            Some((_, (port, dom))) => Some((*port, *dom)),
            None => None,
        }
    }

    /// The name with which the port was declared.
    pub fn name(&self, port: Port) -> Option<&str>
        ensures found { is_some result ≡ has_number self.now.ports port }
        ensures value { IfSome result (λ name. name.now ≡ name_of self.now.ports port) }
        ensures declared { are_declared self.now.ports ≡ true }
    {
        for i in 0..self.len() {
            if self.is_at(i, port) {
                return self.name_at(i);
            }
        }
        None
    }

    /// Whether the port was declared in that place.
    fn is_at(&self, i: usize, p: Port) -> bool
        ensures { result ≡ is_port_at self.now.ports i p }
    {
        match self.ports.get_index(i) {
            Some((_, (port, _))) => *port == p,
            None => false,
        }
    }

    fn name_at(&self, i: usize) -> Option<&str>
        ensures found { is_some result ≡ is_some (slice_get self.now.ports i) }
        ensures value { IfSome result (λ name. Some name.now ≡ option_map (λ e. e.name) (slice_get self.now.ports i)) }
    {
        match self.ports.get_index(i) {
            Some((name, _)) => Some(name.as_str()),
            None => None,
        }
    }

    /// Whether a form stands that may come first where a scenario has reached this place.
    pub fn stands(&self, place: Place) -> Result<(), LineWhy>
        ensures { result ≡ in_place (stands_at place self.now.place) }
    {
        let stands = match place {
            Place::Opening => self.place == Place::Opening,
            Place::Header => self.place == Place::Header,
            Place::Declarations => self.place == Place::Header || self.place == Place::Declarations,
            Place::Steps => self.place != Place::Opening,
        };
        if stands { Ok(()) } else { Err(LineWhy::Place) }
    }

    /// The same of a step's form that stands for the command `check` alone.
    pub fn stands_in_check(&self) -> Result<(), LineWhy>
        ensures { result ≡ in_place (self.now.check && step self.now.place) }
    {
        if self.check {
            self.stands(Place::Steps)
        } else {
            Err(LineWhy::Place)
        }
    }

    /// The port that the word names.
    #[tactic(auto, unfolding(br_model::specs::Text::Operands::port_name))]
    pub fn named(&self, word: &str) -> Result<Port, LineWhy>
        ensures { result ≡ port_name self.now.ports word.now }
    {
        match self.ports.get(word) {
            Some((port, _)) => Ok(*port),
            None => Err(LineWhy::Port),
        }
    }

    /// The port that the word names, or the host.
    #[tactic(auto, unfolding(br_model::specs::Text::Operands::device))]
    pub(crate) fn device(&self, word: &str) -> Result<Port, LineWhy>
        ensures { result ≡ device_of self.now.ports word.now }
    {
        if word == "host" {
            Ok(Port::HOST)
        } else {
            self.named(word)
        }
    }

    fn is_declared(&self, p: Port) -> bool
        ensures { result ≡ has_number self.now.ports p }
    {
        !p.is_host() && self.domains.of(p).is_some()
    }

    /// The declared port with this number.
    pub fn port_of(&self, number: u8) -> Option<Port>
        ensures { result ≡ (if nat_le number last_port && has_number self.now.ports number then Some number else None) }
    {
        match Port::new(number) {
            Some(port) if self.is_declared(port) => Some(port),
            _ => None,
        }
    }

    /// The declared port whose number the word spells.
    #[tactic(auto, unfolding(br_model::specs::Text::Operands::port_number))]
    pub fn numbered(&self, word: &str) -> Result<Port, LineWhy>
        ensures { result ≡ port_number_of self.now.ports word.now }
    {
        let Some(number) = number_up_to(word, u64::from(Port::LAST)) else {
            return Err(not_numbered(word));
        };
        match self.port_of(number as u8) {
            Some(port) => Ok(port),
            None => Err(LineWhy::Port),
        }
    }

    /// The number of a port that isn't declared yet.
    #[tactic(auto, unfolding(br_model::specs::Text::Operands::new_port))]
    pub fn new_port(&self, word: &str) -> Result<Port, LineWhy>
        ensures value { result ≡ new_port_of self.now.ports word.now }
        ensures fits { IfOk result (λ p. (p ≢ host) × (has_number self.now.ports p ≡ false)) }
    {
        let number = number(word, 1, u64::from(Port::LAST))?;
        match Port::new(number as u8) {
            Some(port) if !self.is_declared(port) => Ok(port),
            _ => Err(LineWhy::Port),
        }
    }

    /// A domain that a switch chip can have.
    pub fn chip_domain(&self, word: &str) -> Result<Dom, LineWhy>
        ensures { result ≡ number_of first_chip_domain last_chip word.now }
    {
        let number = number(word, u64::from(Dom::CHIP.number()), u64::from(Dom::LAST))?;
        match Dom::new(number as u8) {
            Some(dom) => Ok(dom),
            None => unreachable!(),
        }
    }

    /// The domain of a switch chip that exists.
    #[tactic(auto, unfolding(br_model::specs::Text::Operands::chip_domain))]
    pub fn chip(&self, word: &str) -> Result<Dom, LineWhy>
        ensures value { result ≡ chip_domain self.now.ports word.now }
        ensures exists { IfOk result (λ dom. is_chip self.now.ports dom ≡ true) }
    {
        let dom = self.chip_domain(word)?;
        if self.has_chip(dom) {
            Ok(dom)
        } else {
            Err(LineWhy::Port)
        }
    }

    fn has_chip(&self, dom: Dom) -> bool
        ensures { result ≡ is_chip self.now.ports dom }
    {
        dom == Dom::CHIP || (dom != Dom::SOFTWARE && self.has_port_in(dom))
    }

    /// Whether a port of the domain is declared.
    fn has_port_in(&self, dom: Dom) -> bool
        ensures { result ≡ list_any (λ e. e.dom == dom) self.now.ports }
    {
        for i in 0..self.len() {
            if self.is_in(i, dom) {
                return true;
            }
        }
        false
    }

    /// Whether the port that was declared in that place is in the domain.
    fn is_in(&self, i: usize, dom: Dom) -> bool
        ensures { result ≡ is_domain_at self.now.ports i dom }
    {
        match self.ports.get_index(i) {
            Some((_, (_, d))) => *d == dom,
            None => false,
        }
    }

    /// The name of a port that isn't declared yet.
    #[tactic(auto, unfolding(br_model::specs::Text::Operands::new_name))]
    pub fn new_name(&self, alloc: Global, word: &str) -> Result<Name, LineWhy>
        ensures value { OrNoMemory result (new_name_of self.now.ports word.now) }
        ensures fits { IfOk result (λ name. (is_a_name name && not (is_some (port_named self.now.ports name))) ≡ true) }
    {
        if !is_name(word) || self.is_taken(word) {
            return Err(LineWhy::Port);
        }
        match String::from_str(alloc, word) {
            Ok(text) => Ok(Name::of(text)),
            Err(_) => Err(LineWhy::NoMemory),
        }
    }

    #[tactic(auto, unfolding(br_model::specs::Text::Operands::port_name))]
    fn is_taken(&self, word: &str) -> bool
        ensures { result ≡ is_some (port_named self.now.ports word.now) }
    {
        match self.named(word) {
            Ok(_) => true,
            Err(_) => false,
        }
    }

    /// The scenario reaches this place.
    pub fn reach(&mut self, place: Place)
        ensures { self.new ≡ record self.old { place = place } }
    {
        self.place = place;
    }

    /// The scenario begins, in this edition.
    pub fn open(&mut self, edition: Edition)
        ensures { self.new ≡ declared self.old (Opens edition) }
    {
        self.domains = self.domains.again().with_edition(edition);
        self.place = Place::Header;
    }

    /// The bridge has this address, and the scenario is among its declarations.
    pub fn set_own(&mut self, own: Mac)
        ensures { self.new ≡ declared self.old (Bridge own) }
    {
        self.own = own;
        self.place = Place::Declarations;
    }

    /// The port is declared, and the scenario is among its declarations.
    pub fn declare(&mut self, port: Port, name: Name, dom: Dom) -> Result<(), NoMemory>
        requires { fits_beside self.old.ports (record { name = name; port = port; dom = dom }) ≡ true }
        ensures ok { OnOk result (self.new ≡ declared self.old (Declares port name dom)) }
        ensures err { OnErr result (self.new ≡ self.old) }
    {
        self.ports.insert(name.into_text(), (port, dom))?;
        self.domains.set(port, dom);
        self.place = Place::Declarations;
        Ok(())
    }
}
