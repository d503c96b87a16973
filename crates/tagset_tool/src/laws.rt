//! What the definitions of the output say together.

ghost use Rattle.article_tree.specs.Writing.{IsWritable};
ghost use Rattle.document_trees.specs.Trees.{Node};
ghost use Rattle.tagset_tool.specs.Headline.{HeadlineLaw, IsReadBack};
ghost use Rattle.tagset_tool.specs.Law.{OutputLaw, SubsetLaw};

/// Where both sets are read, the first declares the root and the output is not too long, status 0 says that no document
/// separates, and status 1 that one does.
pub fn subset_law()
    ensures { SubsetLaw }
{}

/// What an output of `compare` says of all documents, line by line: that no document separates; or an article that does, with
/// as few elements as can be and no more than the cap, and what is written of it is read back; or that there are such
/// articles, and each has more elements than the cap. The certificate in the output is accepted for the two sets and bounds
/// what is said, and `verify` of a file with these bytes says so.
pub fn headline_law()
    ensures { HeadlineLaw }
{}

/// Words and files have one output.
pub fn output_law()
    ensures { OutputLaw }
{}

/// The bytes that are written of a writable node are read back as that node, whatever their file is named and whatever entities
/// are declared.
pub fn written_law()
    ensures { (node : Node) → IsWritable node → IsReadBack node }
{}
