//! What the master's part does where a tablet or a snapshot is removed, and where the catalog's old records go.
ghost use Rattle.std.specs.Prelude.{◌≡◌, OnOk};
ghost use Rattle.model.specs.Parts.{Removes, Prunes};
ghost use Rattle.model.specs.Cleanup.{removed_of};
ghost use Rattle.model.specs.History.{master_effect};
ghost use Rattle.catalog_core.specs.Pruned.{pruned_by};
ghost use Rattle.yb_ident.specs.Seen as kinds;
ghost use Rattle.master_part.specs.Going.{cut_of, CutsBy, PruneRoom};

use crate::cut::Cut;
use crate::fields::kind_of;
use crate::part::MasterPart;
use catalog_core::Cuts;
use hybrid_time::HybridTime;
use row_values::{NoMemory, Records};
use yb_ident::{Ident, Kind};

// The cuts of a list; a namespace that is not in it has the time 0.
#[derive(Drop)]
struct ListedCuts<'a> {
    cuts: &'a Records<Cut>,
}

impl<'a> Cuts for ListedCuts<'a> {
    ghost cut = { λ w ns. cut_of w.cuts.now ns };

    fn cut(&self, namespace: &Ident) -> HybridTime {
        cut_in(self.cuts.as_slice(), namespace)
    }
}

// The cut of a namespace by a list of them.
fn cut_in(cuts: &[Cut], namespace: &Ident) -> HybridTime
    ensures exact { result ≡ cut_of cuts.now namespace.now }
{
    for cut in cuts {
        if cut.namespace == *namespace {
            return cut.to;
        }
    }
    HybridTime { value: 0 }
}

impl MasterPart {
    /// A tablet is forgotten, or a snapshot's record goes; nothing else is removed.
    #[tactic(auto, using(crate::proofs::ByKind::removed_by_kind))]
    pub fn remove(&mut self, target: &Ident, stamp: HybridTime)
        ensures master { self.new.master ≡ master_effect (Removes target.now) stamp self.old.master }
    {
        self.remove_by(kind_of(target), target, stamp);
    }

    // The same of what is of this kind.
    fn remove_by(&mut self, kind: Kind, target: &Ident, stamp: HybridTime)
        ensures master { self.new.master ≡ removed_of (kinds.kind_of kind) target.now stamp self.old.master }
    {
        self.clock = stamp;
        match kind {
            Kind::Tablet => self.activity.forget(target),
            Kind::Snapshot => self.snapshots.remove(target),
            Kind::Namespace => {}
            Kind::Table => {}
            Kind::Schedule => {}
            Kind::Restoration => {}
            Kind::Clone => {}
        }
    }

    /// Makes room to look up anew what a prune leaves.
    pub fn prepare_prune(&mut self) -> Result<(), NoMemory>
        ensures master { self.new.master ≡ self.old.master }
        ensures room { OnOk result (PruneRoom self.new) }
    {
        self.catalog.prepare_keep()
    }

    /// The catalog's old records go, of each namespace those that ended by its cut, in the room that was made.
    pub fn prune(&mut self, cuts: &Records<Cut>, stamp: HybridTime)
        requires room { PruneRoom self.old }
        requires cuts { CutsBy cuts.now stamp self.old.master }
        ensures master { self.new.master ≡ master_effect Prunes stamp self.old.master }
    {
        self.prune_by(&ListedCuts { cuts });
        self.tick(stamp);
    }

    // The records that ended by their namespace's cut go.
    fn prune_by<C: Cuts>(&mut self, cuts: &C)
        requires room { PruneRoom self.old }
        ensures master { self.new.master ≡ record self.old.master { catalog = pruned_by (λ ns. C.cut cuts.now ns) self.old.master.catalog } }
    {
        self.catalog.prune(cuts);
    }
}
