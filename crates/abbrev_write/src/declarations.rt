//! The declarations so far, which are looked up by their content.

ghost use Rattle.std.specs.Prelude.{◌≡◌, ◌<◌, ◌+◌, ◌^◌, ◌++◌, ◌∷◌, [], length, map, None, IfOk, OnErr, OnOk};
ghost use Rattle.dwarf_types.specs.Abbreviations.{code_in};
ghost use Rattle.unit_source.specs.Given.{attr_given};
ghost use Rattle.abbrev_write.specs.Keys.{all_declared, code_among, declared_by};
ghost use Rattle.abbrev_write.specs.Table.{declaring, with_declaration};

use crate::declare::make_key;
use crate::key::Key;
use ds_base::NoMemory;
use indexmap::IndexSet;
use std::alloc::Global;
use std::marker::Model;
use unit_source::OutAttrRef;

/// The declarations of a unit so far, each once, by first use.
///
/// A contract sees them as a list. The code of one is its place there, counted from 1.
#[derive(Drop)]
pub struct Declared {
    declarations: IndexSet<Key>,
    /// Where what declares a node is made. One serves all nodes.
    key: Key,
}

impl Model for Declared {
    ghost use Rattle.std.specs.Prelude.{List as Listed};
    ghost use Rattle.dwarf_types.specs.declared.abbrev.Declaration.{Declaration as ADeclaration};
    ghost use Rattle.abbrev_write.specs.Keys.{all_declared};

    ghost Value = { Listed ADeclaration };

    ghost view = { λ a. all_declared a.declarations.keys };
}

impl Declared {
    /// No declarations. It asks the allocator for nothing.
    pub fn new(alloc: Global) -> Declared
        ensures { result ≡ [] }
    {
        Declared {
            declarations: IndexSet::new(alloc),
            key: Key {
                tag: 0,
                children: false,
                attributes: Vec::new(alloc),
            },
        }
    }

    /// The code of what declares a node of the unit of a number. It is put last where it is new.
    ///
    /// The form of a reference depends on whether it stays in the unit. The declaration is looked up by its hash, so the
    /// time is linear in the attributes, unless many declarations share one.
    pub fn code_of(
        &mut self,
        alloc: Global,
        number: u32,
        tag: u16,
        children: bool,
        attrs: &[OutAttrRef],
    ) -> Result<u32, NoMemory>
        requires few { length self.old < 2 ^ 28 }
        ensures grown { OnOk result (self.new ≡ with_declaration self.old (declaring number tag children (map attr_given attrs.now))) }
        ensures code { IfOk result (λ code. code ≡ code_in self.new (declaring number tag children (map attr_given attrs.now))) }
        ensures unchanged { OnErr result (self.new ≡ self.old) }
    {
        make_key(&mut self.key, number, tag, children, attrs)?;
        if let Some(i) = self.declarations.get_index_of(&self.key) {
            prove!(i < self.declarations.len());
            return Ok(i as u32 + 1);
        }
        let code = put_last(alloc, &mut self.declarations, &self.key)?;
        Ok(code)
    }

    /// The declarations, in the order of their codes.
    pub(crate) fn as_slice(&self) -> &[Key]
        ensures { all_declared result.now ≡ self.now }
    {
        self.declarations.as_slice()
    }
}

/// Puts a declaration last that is new, and tells its code.
fn put_last(alloc: Global, declarations: &mut IndexSet<Key>, key: &Key) -> Result<u32, NoMemory>
    requires few { length declarations.old.keys < 2 ^ 28 }
    requires new { code_among (all_declared declarations.old.keys) (declared_by key.now) ≡ None }
    ensures added { OnOk result (all_declared declarations.new.keys ≡ all_declared declarations.old.keys ++ declared_by key.now ∷ []) }
    ensures code { IfOk result (λ code. code ≡ length declarations.old.keys + 1) }
    ensures unchanged { OnErr result (declarations.new.keys ≡ declarations.old.keys) }
{
    let code = declarations.len() as u32 + 1;
    let attributes = Vec::from_slice(alloc, key.attributes.as_slice())?;
    declarations.insert(Key {
        tag: key.tag,
        children: key.children,
        attributes,
    })?;
    Ok(code)
}
