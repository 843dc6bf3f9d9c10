ghost use Rattle.std.specs.Prelude.{◌≡◌, [], IfOk, OnOk, position};
ghost use Rattle.std.specs.Arc.{arc_value};
ghost use Rattle.lb_config_rules.specs.Groups.{grown, is_group, lines_in, with_line, with_lines};

use lb_acl::{Acl, AclLine};
use lb_config_conditions::AclDeclaration;
use lb_types::Name;
use std::alloc::{AllocError, Global};
use std::marker::Model;
use std::sync::Arc;

/// The lines of one name, as far as they were gathered.
#[derive(Drop)]
struct AclGroup {
    name: Name,
    lines: Vec<AclLine>,
}

impl Model for AclGroup {
    ghost use Rattle.lb_config_rules.specs.GroupView.{GroupView};

    ghost Value = { GroupView };

    ghost view = { λ group. record { name = group.name; lines = group.lines.items } };
}

impl AclGroup {
    fn push(&mut self, line: AclLine) -> Result<(), AllocError>
        ensures { OnOk result (self.new ≡ grown self.old line) }
    {
        self.lines.push(line)?;
        Ok(())
    }

    fn has_name(&self, name: &Name) -> bool
        ensures { result ≡ is_group name.now self.now }
    {
        self.name.as_bytes() == name.as_bytes()
    }
}

/// An ACL with its name. Conditions share it.
#[derive(Drop)]
struct SharedAcl {
    name: Name,
    acl: Arc<Acl>,
}

impl Model for SharedAcl {
    ghost use Rattle.std.specs.Arc.{arc_value};
    ghost use Rattle.lb_config_rules.specs.GroupView.{GroupView};

    ghost Value = { GroupView };

    ghost view = { λ shared. record { name = shared.name; lines = arc_value shared.acl } };
}

impl SharedAcl {
    fn of(alloc: Global, group: AclGroup) -> Result<Self, AllocError>
        ensures { IfOk result (λ shared. shared ≡ group) }
    {
        let AclGroup { name, lines } = group;
        Ok(SharedAcl {
            name,
            acl: Arc::new(alloc, Acl::new(lines))?,
        })
    }

    fn has_name(&self, name: &Name) -> bool
        ensures { result ≡ is_group name.now self.now }
    {
        self.name.as_bytes() == name.as_bytes()
    }

    fn acl(&self) -> Result<Arc<Acl>, AllocError>
        ensures { IfOk result (λ acl. arc_value acl ≡ self.now.lines) }
    {
        Arc::try_clone(&self.acl)
    }
}

/// The ACLs of a section by their names.
#[derive(Drop)]
pub(crate) struct NamedAcls {
    acls: Vec<SharedAcl>,
}

impl Model for NamedAcls {
    ghost use Rattle.std.specs.Prelude.{List};
    ghost use Rattle.lb_config_rules.specs.GroupView.{GroupView};

    ghost Value = { List GroupView };

    ghost view = { λ named. named.acls.items };
}

impl NamedAcls {
    /// The ACLs of these lines. A line of a name is put after the others of its name.
    pub(crate) fn of(alloc: Global, lines: Vec<AclDeclaration>) -> Result<Self, AllocError>
        ensures { IfOk result (λ named. named ≡ with_lines [] lines.items) }
    {
        let groups = gathered(alloc, lines)?;
        Ok(NamedAcls {
            acls: shared(alloc, groups)?,
        })
    }

    /// The ACL of the name. Its lines are not copied. One without lines never holds.
    pub(crate) fn find(&self, alloc: Global, name: &Name) -> Result<Arc<Acl>, AllocError>
        ensures { IfOk result (λ acl. arc_value acl ≡ lines_in self.now name.now) }
    {
        for acl in &self.acls {
            if acl.has_name(name) {
                return acl.acl();
            }
        }
        Ok(Arc::new(alloc, Acl::new(Vec::new(alloc)))?)
    }
}

fn gathered(alloc: Global, lines: Vec<AclDeclaration>) -> Result<Vec<AclGroup>, AllocError>
    ensures { IfOk result (λ groups. groups.items ≡ with_lines [] lines.items) }
{
    let mut groups = Vec::new(alloc);
    for line in lines {
        add_line(alloc, &mut groups, line)?;
    }
    Ok(groups)
}

fn add_line(
    alloc: Global,
    groups: &mut Vec<AclGroup>,
    declaration: AclDeclaration,
) -> Result<(), AllocError>
    ensures { OnOk result (groups.new.items ≡ with_line groups.old.items declaration) }
{
    let AclDeclaration { name, line } = declaration;
    let Some(place) = group_place(groups, &name) else {
        let lines = vec![in alloc; line]?;
        groups.push(AclGroup { name, lines })?;
        return Ok(());
    };
    groups[place].push(line)?;
    Ok(())
}

fn group_place(groups: &[AclGroup], name: &Name) -> Option<usize>
    ensures { result ≡ position (is_group name.now) groups.now }
{
    groups.iter().position(|group| group.has_name(name))
}

fn shared(alloc: Global, groups: Vec<AclGroup>) -> Result<Vec<SharedAcl>, AllocError>
    ensures { IfOk result (λ acls. acls.items ≡ groups.items) }
{
    let mut acls = Vec::new(alloc);
    for group in groups {
        acls.push(SharedAcl::of(alloc, group)?)?;
    }
    Ok(acls)
}
