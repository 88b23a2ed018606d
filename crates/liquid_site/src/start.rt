//! The site before its first page.
ghost use Rattle.std.specs.Prelude.{◌≡◌, IfOk};
ghost use Rattle.liquid_model.specs.Answer.{Answers};
ghost use Rattle.liquid_language.specs.Standard.{IsStandard};
ghost use Rattle.liquid_json.specs.Json.{data_of};
ghost use Rattle.liquid_site.specs.SiteViews.{contents_of, language_of};
ghost use Rattle.liquid_site.specs.Start.{site_over};

use crate::Site;
use liquid_core::{Missing, Result};
use liquid_engine::{DEFAULT_DEPTH, RunSetting};
use liquid_json::data_from_json;
use liquid_language::language;
use std::alloc::Global;

/// A site in the standard language over the data of a text of JSON, without pages and partials, of
/// at most 32 nested partials, in which a missing value is this. The answer is the data's fault,
/// `InvalidInput` or `Float`, where the text gives no data, or `Memory`.
pub fn site_of(alloc: Global, missing: Missing, data: &str) -> Result<Site>
    ensures contents { Answers contents_of result (site_over missing (data_of «data».now)) }
    ensures missing { IfOk result (λ site. (contents_of site).setting.missing ≡ missing) }
    ensures language { IfOk result (λ site. IsStandard (language_of site)) }
{
    let data = data_from_json(alloc, data)?;
    let setting = RunSetting {
        depth: DEFAULT_DEPTH,
        missing,
    };
    Ok(Site::with_data(alloc, language(alloc)?, setting, data))
}
