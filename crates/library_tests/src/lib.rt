//! Tests of libraries through what only code can ask: calls that no command line reaches, values that no command gives,
//! and the laws, which can be called. All other cases are lines for the driver `nd_cases`.
#![tactic(auto)]

#[cfg(test)]
mod areas;
#[cfg(test)]
mod extents;
#[cfg(test)]
mod lists;
#[cfg(test)]
mod nfit_fields;
#[cfg(test)]
mod nfits;
#[cfg(test)]
mod numbers;
#[cfg(test)]
mod platforms;
#[cfg(test)]
mod replies;
#[cfg(test)]
mod states;
#[cfg(test)]
mod steps;
#[cfg(test)]
mod tables;
#[cfg(test)]
mod two_modules;
#[cfg(test)]
mod two_ways;
#[cfg(test)]
mod uuids;
#[cfg(test)]
mod views;
