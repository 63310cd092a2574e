use std::marker::Model;

/// How many identifiers of each kind were ever drawn; none is drawn again. Contracts see it as the
/// book's.
#[derive(Clone, Copy, Debug, PartialEq, Eq)]
pub struct Drawn {
    pub namespaces: u64,
    pub tables: u64,
    pub tablets: u64,
    pub schedules: u64,
    pub snapshots: u64,
    pub restorations: u64,
    pub clones: u64,
}

impl Model for Drawn {
    ghost use Rattle.model.specs.Parts.{Drawn};

    ghost Value = { Drawn };

    ghost view = { λ d. record {
      namespaces = d.namespaces;
      tables = d.tables;
      tablets = d.tablets;
      schedules = d.schedules;
      snapshots = d.snapshots;
      restorations = d.restorations;
      clones = d.clones;
    } };

    ghost inverse = { λ v. record {
      namespaces = v.namespaces;
      tables = v.tables;
      tablets = v.tablets;
      schedules = v.schedules;
      snapshots = v.snapshots;
      restorations = v.restorations;
      clones = v.clones;
    } };
}
