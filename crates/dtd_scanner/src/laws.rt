//! Laws of the definitions.

ghost use Rattle.std.specs.Prelude.{◌≡◌, ◌↔◌, ℕ, List, Result, Ok};
ghost use Rattle.dtd_scanner.specs.Items.{IsItemAt, Scans};
ghost use Rattle.dtd_scanner.specs.Scanning.{item_at};
ghost use Rattle.dtd_scanner.specs.ItemLists.{AreItems, items_of};
ghost use Rattle.dtd_scanner.specs.declared.item.Item.{Item};
ghost use Rattle.dtd_scanner.specs.declared.item.ItemKind.{ItemKind};
ghost use Rattle.dtd_scanner.specs.declared.item.ScanFault.{ScanFault};

/// The item at a place of a text is unique: its kind, and where it ends.
#[tactic(auto, using(crate::proofs::Agreement::one_item))]
pub fn item_law()
    ensures { (text : List ℕ) (at : ℕ) (kind other : ItemKind) (end last : ℕ) → IsItemAt text at kind end → IsItemAt text at other last
        → (kind ≡ other) × (end ≡ last) }
{}

/// What is computed for a place of a text is what the definition says of it.
#[tactic(auto, using(crate::proofs::Agreement::scanning))]
pub fn scanning_law()
    ensures { (text : List ℕ) (at : ℕ) (answer : Result Item ScanFault) → (answer ≡ item_at text at) ↔ Scans text at answer }
{}

/// The definition says one answer of a place of a text.
#[tactic(auto, using(crate::proofs::Agreement::one_answer))]
pub fn answer_law()
    ensures { (text : List ℕ) (at : ℕ) (first second : Result Item ScanFault) → Scans text at first → Scans text at second → first ≡ second }
{}

/// A text is one list of items at most.
#[tactic(auto, using(crate::proofs::Listing::one_list))]
pub fn list_law()
    ensures { (text : List ℕ) (items others : List Item) → AreItems text items → AreItems text others → items ≡ others }
{}

/// The items that are computed for a text are those that it is a list of.
#[tactic(auto, using(crate::proofs::Listing::listing))]
pub fn items_law()
    ensures { (text : List ℕ) (items : List Item) → (items_of text ≡ Ok items) ↔ AreItems text items }
{}
