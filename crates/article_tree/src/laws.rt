//! Laws of the definitions.

ghost use Rattle.std.specs.Prelude.{◌≡◌, ◌↔◌, ◌≤◌, ◌+◌, ℕ, List, Some, Ok, Err, length, IsTrue};
ghost use Rattle.std.specs.List.{list_all};
ghost use Rattle.document_trees.specs.Trees.{Items, Node, IsDocument, are_chars};
ghost use Rattle.decl_set.specs.Asked.{is_entity_kept};
ghost use Rattle.decl_set.specs.Declarations.{Entity};
ghost use Rattle.article_tree.specs.Content.{Pieces, items_of};
ghost use Rattle.jats_chars.specs.Decoded.{text_of};
ghost use Rattle.article_tree.specs.Decoding.{article_from};
ghost use Rattle.article_tree.specs.Tokens.{Token, Begins};
ghost use Rattle.article_tree.specs.Taking.{first_token};
ghost use Rattle.article_tree.specs.Stops.{Standing};
ghost use Rattle.article_tree.specs.Words.{Names};
ghost use Rattle.article_tree.specs.Reading.{content, article_of};
ghost use Rattle.article_tree.specs.Grammar.{IsContent, IsArticle};
ghost use Rattle.article_tree.specs.Runs.{AreApart};
ghost use Rattle.jats_fault.specs.declared.fault.Fault.{Fault};
ghost use Rattle.article_tree.specs.Faults.{IsWithin};
ghost use Rattle.article_tree.specs.InPlace.{article_in_place};
ghost use Rattle.article_tree.specs.Writing.{write, IsWritable};

/// The token that is computed is the one with which the text begins.
pub fn token_law()
    ensures { (token : Token) (text rest : List ℕ) → (first_token text ≡ Some (token, rest)) ↔ Begins token text rest }
{}

/// A text gives items exactly where it is a content of pieces that have them.
pub fn content_law()
    ensures { (entities : List Entity) (levels : ℕ) (names : Names) (depth : ℕ) (c : Standing) (before : ℕ) (text : List ℕ) (items : Items) (after : ℕ)
        → levels + length names ≡ 33 → length names ≤ 32
        → (content levels entities names depth c before text ≡ Ok (items, after)) ↔ ((p : Pieces) × IsContent entities names depth p before text after × (items ≡ items_of p)) }
{}

/// Reading gives a node exactly where the text is an article of it.
pub fn article_law()
    ensures { (entities : List Entity) (article text : List ℕ) (node : Node) → (article_of entities article text ≡ Ok node) ↔ IsArticle entities text node }
{}

/// Bytes give a node exactly where they are decoded to a text that is an article of it.
pub fn reading_law()
    ensures { (entities : List Entity) (article bytes : List ℕ) (node : Node) → (article_from entities article bytes ≡ Ok node) ↔ ((text : List ℕ) × (text_of bytes ≡ Ok text) × IsArticle entities text node) }
{}

/// What is written of a writable node is read back, whatever is declared.
pub fn writing_law()
    ensures { (entities : List Entity) (article : List ℕ) (node : Node) → IsWritable node → article_of entities article (write node) ≡ Ok node }
{}

/// A text is an article of one node at most.
pub fn one_law()
    ensures { (entities : List Entity) (text : List ℕ) (first second : Node) → IsArticle entities text first → IsArticle entities text second → first ≡ second }
{}

/// An article of Chars is one of a document, where the entities have Chars, and no two of its runs stand side by side.
pub fn document_law()
    ensures { (entities : List Entity) (text : List ℕ) (node : Node) → IsTrue (list_all is_entity_kept entities) → IsTrue (are_chars text) → IsArticle entities text node → IsDocument node × AreApart node.items }
{}

/// Reading with one state for all texts gives the same, faults included.
pub fn placing_law()
    ensures { (entities : List Entity) (article text : List ℕ) → article_in_place entities article text ≡ article_of entities article text }
{}

/// A fault of an article has a number of the table, and a place in the text of that article.
pub fn fault_law()
    ensures { (entities : List Entity) (article text : List ℕ) (fault : Fault) → article_of entities article text ≡ Err fault → IsWithin article (length text) fault }
{}
