//! What the definitions of documents say together.

ghost use Rattle.document_trees.specs.Laws.{EachInList, DocumentInList, SizeInList, AlonePlain, BareElements, OneList, EachHasList};

/// The list of a document's nodes: each node passes a test exactly where each in the list does, a tree is a document
/// exactly where each in the list is well made, and there are as many as the document is large.
pub fn nodes_law()
    ensures each { EachInList }
    ensures document { DocumentInList }
    ensures size { SizeInList }
{}

/// Items that are elements alone: each run is plain and the items are well made. The elements alone of any items keep
/// their names, nodes and depth.
pub fn alone_law()
    ensures alone { AlonePlain }
    ensures bare { BareElements }
{}

/// A program's lists of items are the items of documents: no two are the same, and none is missing. So two nodes are
/// equal exactly where they are the same document.
pub fn items_law()
    ensures one { OneList }
    ensures each { EachHasList }
{}
