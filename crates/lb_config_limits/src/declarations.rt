ghost use Rattle.std.specs.Prelude.{◌≡◌};
ghost use Rattle.lb_config_limits.specs.Limits.{Gives, Reads, nothing, new_section, one_more, take_line, take_frontend, take_backend, take_listen, take_server, take_acl, take_rule, take_stick};

use crate::kind::{Kind, name_in};
use crate::name_set::NameSet;
use crate::{LimitError, LimitFault};
use lb_config_words::Word;
use lb_types::MAX_SERVERS;
use std::alloc::Global;
use std::marker::Model;

/// How many backends there may be.
pub const MAX_BACKENDS: usize = 64;

/// How many `acl` lines, and how many rules, a section may have.
pub const MAX_LINES: u32 = 256;

/// What the lines so far have declared, as far as later lines are judged by it.
#[derive(Drop)]
pub struct Declarations {
    frontends: NameSet,
    backends: NameSet,
    /// The servers of the section, and so on.
    servers: NameSet,
    acls: u32,
    rules: u32,
    has_stick: bool,
}

impl Model for Declarations {
    ghost use Rattle.lb_config_limits.specs.DeclaredView.{DeclaredView};

    ghost Value = { DeclaredView };

    ghost view = { λ d. record {
      frontends = d.frontends;
      backends = d.backends;
      servers = d.servers;
      acls = d.acls;
      rules = d.rules;
      has_stick = d.has_stick;
    } };
}

impl Declarations {
    /// Before the first line. Allocates nothing.
    pub fn new(alloc: Global) -> Self
        ensures { result ≡ nothing }
    {
        Declarations {
            frontends: NameSet::new(alloc),
            backends: NameSet::new(alloc),
            servers: NameSet::new(alloc),
            acls: 0,
            rules: 0,
            has_stick: false,
        }
    }

    /// Takes the next line's words, unless the line may not follow those before it.
    ///
    /// A name is looked up in a set, so a text of a million bytes of any kind is judged in a moment.
    #[tactic(auto, unfolding(crate::specs::Limits::take_line))]
    pub fn take(&mut self, words: &[Word]) -> Result<(), LimitError>
        ensures { Gives (λ _. self.new) result (take_line self.old words.now) }
    {
        match Kind::of(words) {
            None => Ok(()),
            Some(Kind::Section) => {
                self.begin_section();
                Ok(())
            }
            Some(Kind::Frontend) => self.take_frontend(words),
            Some(Kind::Backend) => self.take_backend(words),
            Some(Kind::Listen) => self.take_listen(words),
            Some(Kind::Server) => self.take_server(words),
            Some(Kind::Acl) => Ok(self.take_acl()?),
            Some(Kind::Rule) => Ok(self.take_rule()?),
            Some(Kind::StickOn) => Ok(self.take_stick()?),
        }
    }

    /// Forgets what counts for one section alone.
    fn begin_section(&mut self)
        ensures { self.new ≡ new_section self.old }
    {
        self.servers.clear();
        self.acls = 0;
        self.rules = 0;
        self.has_stick = false;
    }

    #[tactic(auto, unfolding(crate::specs::Limits::take_frontend))]
    fn take_frontend(&mut self, words: &[Word]) -> Result<(), LimitError>
        ensures { Gives (λ _. self.new) result (take_frontend self.old words.now) }
    {
        self.frontends.add(name_in(words))?;
        self.begin_section();
        Ok(())
    }

    #[tactic(auto, unfolding(crate::specs::Limits::take_backend))]
    fn take_backend(&mut self, words: &[Word]) -> Result<(), LimitError>
        ensures { Gives (λ _. self.new) result (take_backend self.old words.now) }
    {
        self.backends.want_room(MAX_BACKENDS)?;
        self.backends.add(name_in(words))?;
        self.begin_section();
        Ok(())
    }

    #[tactic(auto, unfolding(crate::specs::Limits::take_listen))]
    fn take_listen(&mut self, words: &[Word]) -> Result<(), LimitError>
        ensures { Gives (λ _. self.new) result (take_listen self.old words.now) }
    {
        self.backends.want_room(MAX_BACKENDS)?;
        self.frontends.add(name_in(words))?;
        self.backends.add(name_in(words))?;
        self.begin_section();
        Ok(())
    }

    #[tactic(auto, unfolding(crate::specs::Limits::take_server))]
    fn take_server(&mut self, words: &[Word]) -> Result<(), LimitError>
        ensures { Gives (λ _. self.new) result (take_server self.old words.now) }
    {
        self.servers.want_room(MAX_SERVERS)?;
        self.servers.add(name_in(words))
    }

    #[tactic(auto, unfolding(crate::specs::Limits::take_acl))]
    fn take_acl(&mut self) -> Result<(), LimitFault>
        ensures { Reads (λ _. self.new) result (take_acl self.old) }
    {
        self.acls = one_more(self.acls)?;
        Ok(())
    }

    #[tactic(auto, unfolding(crate::specs::Limits::take_rule))]
    fn take_rule(&mut self) -> Result<(), LimitFault>
        ensures { Reads (λ _. self.new) result (take_rule self.old) }
    {
        self.rules = one_more(self.rules)?;
        Ok(())
    }

    #[tactic(auto, unfolding(crate::specs::Limits::take_stick))]
    fn take_stick(&mut self) -> Result<(), LimitFault>
        ensures { Reads (λ _. self.new) result (take_stick self.old) }
    {
        if self.has_stick {
            return Err(LimitFault::SecondStick);
        }
        self.has_stick = true;
        Ok(())
    }
}

/// The count with one line more.
fn one_more(count: u32) -> Result<u32, LimitFault>
    ensures { result ≡ one_more count }
{
    if count >= MAX_LINES {
        return Err(LimitFault::TooMany);
    }
    Ok(count + 1)
}
