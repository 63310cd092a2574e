use hybrid_time::HybridTime;
use row_values::{Copied, Name, NoMemory};
use std::marker::Model;
use table_schema::Schema;
use yb_ident::Ident;

/// A namespace under its name, and when it was current. Contracts see it as the book's.
#[derive(Debug, Drop, PartialEq, Eq)]
pub struct NamespaceRecord {
    pub id: Ident,
    pub name: Name,
    pub from: HybridTime,
    pub to: Option<HybridTime>,
}

impl Model for NamespaceRecord {
    ghost use Rattle.model.specs.Catalog.{NamespaceRecord};

    ghost Value = { NamespaceRecord };

    ghost view = { λ r. record { id = r.id; name = r.name; from = r.from; to = r.to } };

    ghost inverse = { λ v. record { id = v.id; name = v.name; from = v.from; to = v.to } };
}

/// A table under one name and one schema, and when it had them. Contracts see it as the book's.
#[derive(Debug, Drop, PartialEq, Eq)]
pub struct TableRecord {
    pub id: Ident,
    pub namespace: Ident,
    pub name: Name,
    pub schema: Schema,
    pub from: HybridTime,
    pub to: Option<HybridTime>,
}

impl Model for TableRecord {
    ghost use Rattle.model.specs.Catalog.{TableRecord};

    ghost Value = { TableRecord };

    ghost view = { λ r. record {
      id = r.id;
      namespace = r.namespace;
      name = r.name;
      schema = r.schema;
      from = r.from;
      to = r.to;
    } };

    ghost inverse = { λ v. record {
      id = v.id;
      namespace = v.namespace;
      name = v.name;
      schema = v.schema;
      from = v.from;
      to = v.to;
    } };
}

impl Copied for TableRecord {
    fn copy(&self) -> Result<TableRecord, NoMemory> {
        Ok(TableRecord {
            id: self.id,
            namespace: self.namespace,
            name: self.name.copy()?,
            schema: self.schema.copy()?,
            from: self.from,
            to: self.to,
        })
    }
}
