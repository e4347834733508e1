//! The laws of what is found.

ghost use Rattle.std.specs.Prelude.{◌≡◌, ◌<◌, ◌-◌, ◌^◌, ℕ, true, List as Listed, Ok, length, map};
ghost use Rattle.std.specs.List.{All};
ghost use Rattle.dwarf_types.specs.declared.graph.Graph.{Graph};
ghost use Rattle.dwarf_types.specs.Encode.{info_section, str_section};
ghost use Rattle.dwarf_types.specs.Well.{IsWell};
ghost use Rattle.accel_tables.specs.declared.rows.Row.{Row};
ghost use Rattle.accel_tables.specs.declared.which.Which.{Which};
ghost use Rattle.accel_tables.specs.EnteredNames.{entered, table_in};
ghost use Rattle.accel_tables.specs.Table.{table_of};
ghost use Rattle.accel_tables.specs.Found.{found};
ghost use Rattle.table_laws.specs.Entries.{IsPair, IsRow, is_spelled, places_of, places_under, row_under};

/// In the table of rows are found, under a name whose text stands at one place in all of them, the places of its entries,
/// rising, each once.
pub fn tables_find_their_rows()
    ensures { (rows : Listed Row) (strings : Listed ℕ) (name : Listed ℕ) (place : ℕ) → 0 < length rows → All (IsRow strings) rows → All (λ r. is_spelled strings name r.text ≡ true → r.text ≡ place) rows → length (table_of rows) < 2 ^ 32 - 1 →
        found (table_of rows) strings name ≡ Ok (places_of strings name rows) }
{}

/// In the table of names and places, the text of each of which stands at a place of its own, are found under a name the places
/// that it has among them, rising, each once.
pub fn tables_find_what_is_entered()
    ensures { (pairs : Listed (Listed ℕ × ℕ)) (text : Listed ℕ → ℕ) (strings : Listed ℕ) (name : Listed ℕ) → 0 < length pairs → All (IsPair text strings) pairs → length (table_of (map (row_under text) pairs)) < 2 ^ 32 - 1 →
        found (table_of (map (row_under text) pairs)) strings name ≡ Ok (places_under name pairs) }
{}

/// In a table of a well graph are found, under a name, the places of the entries that the graph enters in it under that name,
/// rising, each once, where the graph enters some and its sections are within their limits. The texts are those of the graph's
/// string section.
pub fn tables_find_the_names_of_graphs()
    ensures { (graph : Graph) (which : Which) (name : Listed ℕ) → IsWell graph → 0 < length (entered graph which) → length (str_section graph) < 2 ^ 32 → length (info_section graph) < 2 ^ 32 → length (table_in graph which) < 2 ^ 32 - 1 →
        found (table_in graph which) (str_section graph) name ≡ Ok (places_under name (entered graph which)) }
{}
