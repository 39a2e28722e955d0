//! Groups of nets.

ghost use Rattle.std.specs.Prelude.{◌≡◌, ◌<◌, [], All, length, slice_index, slice_index_or, IfOk};
ghost use Rattle.rtl_net_groups.specs.Groups.{AreGroups, AreNetsOf, AreRuns};

use crate::beginnings::beginnings;
use crate::listed::listed_by_group;
use crate::lists::Lists;
use crate::runs::Runs;
use std::alloc::{AllocError, Global};
use std::marker::Model;

/// The groups of a design's nets.
#[derive(Drop)]
pub struct Groups {
    runs: Runs,
    listed: Lists<usize>,
}

impl Model for Groups {
    ghost use Rattle.rtl_net_groups.specs.Groups.{Grouping};

    ghost Value = { Grouping };

    ghost use Rattle.rtl_net_groups.specs.Kept.{grouping_of, IsGrouping};

    ghost view = { grouping_of };

    ghost invariant = { IsGrouping };
}

impl Groups {
    /// The groups of nets that are elements of these declarations and listed for processes, for the
    /// p-th by the p-th list. It takes time in proportion to the nets and the lists.
    pub fn new(
        alloc: Global,
        declared: &[usize],
        nets_of: &Lists<usize>,
    ) -> Result<Groups, AllocError>
        requires { All (λ nets. All (λ n. n < length declared.now) nets) nets_of.now }
        ensures { IfOk result (λ groups. AreGroups declared.now nets_of.now groups) }
    {
        let begins = beginnings(alloc, declared, nets_of)?;
        let runs = Runs::new(alloc, &begins)?;
        let listed = listed_by_group(alloc, &runs, nets_of)?;
        Ok(Groups { runs, listed })
    }

    /// The group of each net.
    pub fn of_net(&self) -> &[usize]
        ensures value { result.now ≡ self.now.of_net }
        ensures below { All (λ g. g < length self.now.listed) result.now }
    {
        self.runs.of_net.as_slice()
    }

    /// How many groups there are.
    pub fn count(&self) -> usize
        ensures { result ≡ length self.now.listed }
    {
        self.listed.count()
    }

    /// The first net of a group.
    pub fn first(&self, group: usize) -> usize
        requires { group < length self.now.first }
        ensures { result ≡ slice_index self.now.first group }
    {
        self.runs.first[group]
    }

    /// The net behind the last one of a group.
    pub fn end(&self, group: usize) -> usize
        requires there { group < length self.now.first }
        requires runs { AreRuns self.now.of_net self.now.first }
        ensures { AreNetsOf self.now group (slice_index self.now.first group) result }
    {
        let groups = self.runs.first.len();
        if group + 1 < groups {
            self.runs.first[group + 1]
        } else {
            self.runs.of_net.len()
        }
    }

    /// The processes for which the nets of a group are listed.
    pub fn listed(&self, group: usize) -> &[usize]
        requires { group < length self.now.listed }
        ensures { result.now ≡ slice_index_or self.now.listed group [] }
    {
        self.listed.get(group)
    }
}
