//! What is linked where entries are merged with others of their name.

ghost use Rattle.std.specs.Prelude.{◌≡◌, ◌↔◌, ◌<◌, ◌+◌, ◌-◌, ◌^◌, ◌&&◌, ℕ, Bool as Choice, true, false, List as Listed, [], ◌∷◌, ◌++◌, length, Some, None};
ghost use Rattle.std.specs.List.{All, AllPairs, Contains};
ghost use Rattle.dwarf_types.specs.declared.analysis.Analysis.{Analysis};
ghost use Rattle.dwarf_types.specs.declared.entry.Entry.{Entry};
ghost use Rattle.dwarf_types.specs.declared.graph.Target.{Target};
ghost use Rattle.dwarf_types.specs.declared.shape.Origin.{Origin};
ghost use Rattle.dwarf_types.specs.LinkedGraph.{linked};
ghost use Rattle.dwarf_types.specs.LinkedShape.{AreMarked, objects_of};
ghost use Rattle.dwarf_types.specs.Live.{bases_of};
ghost use Rattle.dwarf_types.specs.Sound.{IsSound};
ghost use Rattle.dwarf_types.specs.Tree.{ParentsStandBefore, lineage, parent_of};
ghost use Rattle.dwarf_types.specs.Well.{IsWell};
ghost use Rattle.link_graph.specs.Graph.{graph_in, image_of};
ghost use Rattle.link_graph.specs.Merged.{linked_names, shape_of};
ghost use Rattle.link_graph.specs.Pool.{node_of_path, pool_names};
ghost use Rattle.linked_laws.specs.Nodes.{origin_at};
ghost use Rattle.linked_laws.specs.Spellable.{IsSpellable};
ghost use Rattle.merged_laws.specs.Files.{FilesFit};
ghost use Rattle.merged_laws.specs.Leads.{IsLiveEntry, LeadsBeside, LeadsTo, Wins};
ghost use Rattle.merged_laws.specs.Says.{Says};
ghost use Rattle.merged_laws.specs.Stands.{IsNodeOf, IsOfLiveEntry};
ghost use Rattle.odr_names.specs.Making.{AreLiveRows};
ghost use Rattle.odr_names.specs.Winners.{AreWinners};
ghost use Rattle.type_names.specs.Heads.{Object, is_pooled};
ghost use Rattle.type_names.specs.Names.{Named};
ghost use Rattle.type_names.specs.Paths.{path_of};

/// What is linked with merged entries is well.
///
/// The objects' analyses are sound and say what the bytes of an object can say; the live entries of each are marked.
pub fn merged_is_well()
    ensures { (odr : Choice) (seen : Listed Analysis) (live : Listed (Listed Choice)) → All IsSound seen → All IsSpellable seen → AreLiveRows seen live → length seen < 2 ^ 16 → FilesFit seen (shape_of odr seen live)
        → IsWell (graph_in seen (shape_of odr seen live)) }
{}

/// Where nothing is merged, what is linked is the graph of the live entries alone.
pub fn nothing_merged_is_linked()
    ensures { (seen : Listed Analysis) (live : Listed (Listed Choice)) → AreMarked seen live → graph_in seen (shape_of false seen live) ≡ linked (objects_of seen live) }
{}

/// Each name of a link has a node, that of its path, and no two nodes are of one path.
pub fn every_path_has_a_node()
    ensures node { (odr : Choice) (seen : Listed Analysis) (live : Listed (Listed Choice)) → All IsSound seen → AreLiveRows seen live
        → All (λ name. (node : ℕ) × (node_of_path (linked_names odr seen live) name.path ≡ Some node)) (linked_names odr seen live) }
    ensures one { (odr : Choice) (seen : Listed Analysis) (live : Listed (Listed Choice)) → length seen < 2 ^ 16 → All IsSound seen → AreLiveRows seen live
        → AllPairs (λ a b. a.path ≡ b.path → ⊥) (pool_names (linked_names odr seen live)) }
{}

/// A reference to a live entry leads to its node: that of the name that wins the entry's path where it is merged, and else
/// its own. No reference leads to an entry that isn't live.
///
/// An entry whose expressions name a base type isn't merged, and the base type's node stands in its unit.
pub fn live_entries_have_nodes()
    ensures own { (odr : Choice) (seen : Listed Analysis) (live : Listed (Listed Choice)) → All IsSound seen → AreLiveRows seen live → (i k : ℕ) (o : Object) (e : Entry) → IsLiveEntry seen live i k o e → (odr && is_pooled o k) ≡ false
        → LeadsTo (shape_of odr seen live) i k (i + 1) k }
    ensures merged { (odr : Choice) (seen : Listed Analysis) (live : Listed (Listed Choice)) → All IsSound seen → AreLiveRows seen live → (i k : ℕ) (o : Object) (e : Entry) → IsLiveEntry seen live i k o e → (odr && is_pooled o k) ≡ true
        → (w : Named) × Wins (linked_names odr seen live) (path_of (i + 1) o k) w × LeadsTo (shape_of odr seen live) i k w.object w.entry }
    ensures base { (odr : Choice) (seen : Listed Analysis) (live : Listed (Listed Choice)) → All IsSound seen → AreLiveRows seen live → (i k j : ℕ) (o : Object) (e : Entry) → IsLiveEntry seen live i k o e → Contains (bases_of e) j
        → LeadsBeside (shape_of odr seen live) i k j }
    ensures only { (odr : Choice) (seen : Listed Analysis) (live : Listed (Listed Choice)) → All IsSound seen → AreLiveRows seen live → (i k : ℕ) (target : Target) → image_of (shape_of odr seen live) i k ≡ Some target
        → (o : Object) × (e : Entry) × IsLiveEntry seen live i k o e }
{}

/// No two names of a link have one bid, and none bids 2^64 - 1.
///
/// So each path has one winner: all rows of winners of such names are one, however they were found.
pub fn names_bid_apart()
    ensures apart { (odr : Choice) (seen : Listed Analysis) (live : Listed (Listed Choice)) → length seen < 2 ^ 16 → All IsSound seen → AreLiveRows seen live
        → AllPairs (λ a b. a.bid ≡ b.bid → ⊥) (linked_names odr seen live) }
    ensures low { (odr : Choice) (seen : Listed Analysis) (live : Listed (Listed Choice)) → length seen < 2 ^ 16 → All IsSound seen → AreLiveRows seen live
        → All (λ name. name.bid < 2 ^ 64 - 1) (linked_names odr seen live) }
    ensures winners { (names : Listed Named) (winners others : Listed ℕ) → AllPairs (λ a b. a.bid ≡ b.bid → ⊥) names → AreWinners names winners → AreWinners names others → winners ≡ others }
{}

/// Each node of the linked graph stands for a live entry, but the root of the merged entries, which stands for none and is
/// the first node of the first unit.
///
/// Two nodes of one entry are one, where references to the entry lead to both or to neither. So an entry has one node to
/// which references lead, and a second one, in its own unit, only if it is a merged namespace above an entry that isn't
/// merged.
pub fn nodes_stand_for_live_entries()
    ensures live { (odr : Choice) (seen : Listed Analysis) (live : Listed (Listed Choice)) → length seen < 2 ^ 16 → All IsSound seen → AreLiveRows seen live → (target : Target) (origin : Origin) → origin_at (shape_of odr seen live).units target ≡ Some origin → (origin.object ≡ 0 → ⊥)
        → IsOfLiveEntry odr seen live target origin }
    ensures root { (odr : Choice) (seen : Listed Analysis) (live : Listed (Listed Choice)) → length seen < 2 ^ 16 → All IsSound seen → AreLiveRows seen live → (target : Target) (origin : Origin) → origin_at (shape_of odr seen live).units target ≡ Some origin → origin.object ≡ 0
        → target ≡ record { unit = 0; node = 0 } }
    ensures one { (odr : Choice) (seen : Listed Analysis) (live : Listed (Listed Choice)) → length seen < 2 ^ 16 → All IsSound seen → AreLiveRows seen live → (i k : ℕ) (a b : Target) → IsNodeOf odr seen live i k a → IsNodeOf odr seen live i k b
        → ((image_of (shape_of odr seen live) i k ≡ Some a) ↔ (image_of (shape_of odr seen live) i k ≡ Some b)) → a ≡ b }
{}

/// Each node of the linked graph says what the entry says for which it stands, and names the source files that the entry
/// names. The root of the merged entries stands for none.
pub fn nodes_say_what_their_entries_say()
    ensures { (odr : Choice) (seen : Listed Analysis) (live : Listed (Listed Choice)) (target : Target) (origin : Origin) → origin_at (shape_of odr seen live).units target ≡ Some origin → (origin.object ≡ 0 → ⊥)
        → Says seen (shape_of odr seen live) target origin }
{}

/// The lineage of an entry is that of its parent and then itself, and of an entry without a parent itself alone.
///
/// So all entries above one are in it, where each stands behind its parent, as in a sound analysis.
pub fn lineages_reach_the_top()
    ensures top { (entries : Listed Entry) (k : ℕ) → parent_of entries k ≡ None → lineage entries k ≡ k ∷ [] }
    ensures below { (entries : Listed Entry) (k p : ℕ) → ParentsStandBefore entries → parent_of entries k ≡ Some p → lineage entries k ≡ lineage entries p ++ k ∷ [] }
    ensures sound { (seen : Analysis) → IsSound seen → ParentsStandBefore seen.entries }
{}
