//! What is shown of all regions and all modules.

ghost use Rattle.std.specs.Prelude.{IfOk};
ghost use Rattle.std.specs.List.{AllZip};
ghost use Rattle.label_sets.specs.Sets.{labels_in, platform_in};
ghost use Rattle.label_sets.specs.Views.{IsModuleView, IsRegionView, IsView};

use crate::sets::Sets;
use std::alloc::{AllocError, Global};
use view_types::{List, ModuleView, RegionView, View};

impl Sets {
    /// All regions, by index, and all modules, by handle, each as `region_view` and `module_view` show it.
    pub fn view(&self, alloc: Global) -> Result<View, AllocError>
        ensures { IfOk result (IsView self.now) }
    {
        Ok(View {
            regions: self.region_views(alloc)?,
            modules: self.module_views(alloc)?,
        })
    }

    /// All regions, by index.
    fn region_views(&self, alloc: Global) -> Result<List<RegionView>, AllocError>
        ensures { IfOk result
            (AllZip (IsRegionView (platform_in self.now) (labels_in self.now)) self.now.regions) }
    {
        let mut views = List::new(alloc);
        for place in 0..self.regions.len() {
            views.push(self.view_at(alloc, place)?)?;
        }
        Ok(views)
    }

    /// All modules, by handle.
    fn module_views(&self, alloc: Global) -> Result<List<ModuleView>, AllocError>
        ensures { IfOk result
            (AllZip (IsModuleView (platform_in self.now) (labels_in self.now)) self.now.modules) }
    {
        let mut views = List::new(alloc);
        for loaded in &self.modules {
            views.push(self.view_of(alloc, loaded)?)?;
        }
        Ok(views)
    }
}
