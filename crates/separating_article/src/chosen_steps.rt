//! The steps along P that are found while a tree grows.
//!
//! A chosen tree may have many elements of one name, and all that are least take the same steps. So each of these is found
//! once, by its element and its state, and the time that a tree takes is not that of its elements times the steps of their
//! states. The steps along F and G are taken once in a tree anyway.

ghost use Rattle.std.specs.Prelude.{◌≡◌, ℕ, [], if◌then◌else◌, Some};
ghost use Rattle.std.specs.Map.{lookup};
ghost use Rattle.separating_article.specs.declared.choosing.Path.TheVariants.{Own};
ghost use Rattle.separating_article.specs.Choosing.{next_step as step_of};
ghost use Rattle.separating_article.specs.ChosenSteps as spec;
ghost use Rattle.separating_article.specs.Guides.{IsGuide};

use crate::choosing::{Path, Step, next_step};
use crate::guide::Guide;
use indexmap::IndexMap;
use std::alloc::Global;
use std::marker::Model;

/// The steps along P that were found, each at the place of its element and its state.
#[derive(Drop)]
pub struct ChosenSteps {
    steps: IndexMap<(usize, u32), Option<Step>>,
}

impl Model for ChosenSteps {
    ghost use Rattle.separating_article.specs.ChosenSteps.{Found};

    ghost Value = { Found };

    ghost view = { λ c. c.steps.entries };
}

impl ChosenSteps {
    /// No step was found yet.
    pub fn new(alloc: Global) -> ChosenSteps
        ensures { result ≡ [] }
    {
        ChosenSteps {
            steps: IndexMap::new(alloc),
        }
    }

    /// The step that was found there.
    fn found(&self, e: usize, state: u32) -> Option<Option<Step>>
        ensures { result ≡ lookup (spec.is_same_place (e, state)) self.now }
    {
        self.steps.get(&(e, state)).copied()
    }

    /// Keeps a step that was found. Where no memory is left for it, it will be found again.
    fn keep(&mut self, e: usize, state: u32, step: Option<Step>)
        ensures { spec.Keeps (e, state) step self.old self.new }
    {
        let _ = self.steps.insert((e, state), step);
    }

    /// The step along P from a state of the element at a place.
    fn own_step(&mut self, guide: &Guide, e: usize, state: u32) -> Option<Step>
        requires guide { IsGuide guide.now }
        requires chosen { spec.AreChosen guide.now self.old }
        ensures value { result ≡ step_of guide.now e (Own state) }
        ensures chosen { spec.AreChosen guide.now self.new }
    {
        match self.found(e, state) {
            Some(step) => step,
            None => {
                let step = next_step(guide, e, Path::Own(state));
                self.keep(e, state, step);
                step
            }
        }
    }

    /// The step that a chosen tree takes from where its path stands in the element at a place, as `next_step` finds it.
    pub fn next(&mut self, guide: &Guide, e: usize, path: Path) -> Option<Step>
        requires guide { IsGuide guide.now }
        requires chosen { spec.AreChosen guide.now self.old }
        ensures value { result ≡ step_of guide.now e path }
        ensures chosen { spec.AreChosen guide.now self.new }
    {
        match path {
            Path::Own(state) => self.own_step(guide, e, state),
            _ => next_step(guide, e, path),
        }
    }
}
