//! Laws of the definitions.

ghost use Rattle.separating_article.specs.Articles.{LeastArticleExists, LeastArticleIsBuilt, LeastArticleIsWritable, OneLeastArticle};
ghost use Rattle.separating_article.specs.Separating.{ChosenArticleExists, ChosenArticleIsBuilt, ChosenArticleIsWritable, OneChosenArticle};
ghost use Rattle.separating_article.specs.Sizes.{SizeOfText};

/// By an exact table an element whose least size is a number up to the cap has one least tree. It is a document, valid from
/// the element, of that size, with at most 1,024 elements open, and writable: what is written of it is read back.
pub fn least_law()
    ensures one { OneLeastArticle }
    ensures exists { LeastArticleExists }
    ensures built { LeastArticleIsBuilt }
    ensures writable { LeastArticleIsWritable }
{}

/// By exact tables of two sets a root whose v is a number up to the cap has one chosen separating tree. It is a document,
/// valid in the first set from the root and not in the second, of that size, with at most 2,048 elements open, and writable:
/// what is written of it is read back.
pub fn separating_law()
    ensures one { OneChosenArticle }
    ensures exists { ChosenArticleExists }
    ensures built { ChosenArticleIsBuilt }
    ensures writable { ChosenArticleIsWritable }
{}

/// The size of a text, as a sum over the tree, is the length of what is written.
pub fn size_law()
    ensures { SizeOfText }
{}
